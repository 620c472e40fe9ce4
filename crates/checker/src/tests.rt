// Tables of a model of three columns and three rows, worked out by hand: eight outlets around the centre, cell 4.
use crate::checking::check as checked;
use amounts::rows::Row;
use flood::sends::Sends;
use model::units::{Amount, Cell, Height};

const FLAT: [u8; 9] = [0; 9];

// An outlet at height 0 to which nothing comes.
const OUTLET: Row = Row {
    level: Height(0),
    sends: Sends::Off,
    place: 0,
    amount: Amount(1),
};

// On flat land the centre sends to cell 7; the flood would send it to cell 1.
const ROWS: [Row; 9] = [
    OUTLET,
    OUTLET,
    OUTLET,
    OUTLET,
    Row {
        sends: Sends::To(Cell(7)),
        place: 1,
        ..OUTLET
    },
    OUTLET,
    OUTLET,
    Row {
        amount: Amount(2),
        ..OUTLET
    },
    OUTLET,
];

// The bytes of the model with these heights, and one of rain on each cell.
fn model_of(heights: [u8; 9]) -> [u8; 85] {
    let cells = heights.map(|height| [height, 0, 0, 0, 1, 0, 0, 0, 0]);
    let mut bytes = [0; 85];
    bytes[..4].copy_from_slice(&[3, 0, 3, 0]);
    bytes[4..].copy_from_slice(cells.as_flattened());
    bytes
}

// The bytes of each row.
fn table_of(rows: [Row; 9]) -> [[u8; 20]; 9] {
    rows.map(|row| row.to_bytes())
}

// The number and the place of a refusal, which are what is printed.
fn numbers(bytes: &[u8], table: &[u8]) -> Result<(), (u32, usize)> {
    checked(bytes, table).map_err(|refusal| (refusal.number(), refusal.place()))
}

fn answer(heights: [u8; 9], rows: [Row; 9]) -> Result<(), (u32, usize)> {
    numbers(&model_of(heights), table_of(rows).as_flattened())
}

#[test]
fn accepts_another_flow_than_that_of_the_flood(rt: HostRuntime) {
    assert_eq!(rt; answer(FLAT, ROWS), Ok(()));
}

#[test]
fn refuses_the_model_then_the_length(rt: HostRuntime) {
    let table = table_of(ROWS);
    assert_eq!(rt; numbers(&[3, 0, 3], table.as_flattened()), Err((1, 3)));
    assert_eq!(rt; numbers(&model_of(FLAT), &[7; 179]), Err((6, 179)));
    assert_eq!(rt; numbers(&model_of(FLAT), &[]), Err((6, 0)));
}

#[test]
fn refuses_where_a_cell_sends(rt: HostRuntime) {
    let mut rows = ROWS;
    rows[4].sends = Sends::Off;
    assert_eq!(rt; answer(FLAT, rows), Err((8, 4)));
    rows[4].sends = Sends::To(Cell(8));
    assert_eq!(rt; answer(FLAT, rows), Err((8, 4)));
    rows[4].sends = Sends::To(Cell(10));
    assert_eq!(rt; answer(FLAT, rows), Err((8, 4)));
    rows = ROWS;
    rows[4].place = 0;
    assert_eq!(rt; answer(FLAT, rows), Err((8, 4)));
    rows = ROWS;
    rows[3].sends = Sends::To(Cell(0));
    rows[3].place = 1;
    assert_eq!(rt; answer(FLAT, rows), Err((8, 3)));
}

#[test]
fn refuses_a_level(rt: HostRuntime) {
    let mut rows = ROWS;
    rows[2].level = Height(1);
    assert_eq!(rt; answer(FLAT, rows), Err((7, 2)));
    // The centre is raised to 3.
    assert_eq!(rt; answer([0, 0, 0, 0, 3, 0, 0, 0, 0], ROWS), Err((7, 4)));
    rows = ROWS;
    rows[4].level = Height(3);
    assert_eq!(rt; answer(FLAT, rows), Err((7, 4)));
    assert_eq!(rt; answer([0, 0, 0, 0, 3, 0, 0, 0, 0], rows), Ok(()));
    // Water could leave at height 0, but stands at the height of cell 7.
    rows[7].level = Height(3);
    assert_eq!(rt; answer([0, 0, 0, 0, 0, 0, 0, 3, 0], rows), Err((7, 4)));
}

#[test]
fn refuses_an_amount(rt: HostRuntime) {
    let mut rows = ROWS;
    rows[7].amount = Amount(1);
    assert_eq!(rt; answer(FLAT, rows), Err((9, 7)));
    rows[7].amount = Amount(3);
    assert_eq!(rt; answer(FLAT, rows), Err((9, 7)));
    // 1 and 18,446,744,073,709,551,615 are not 0.
    rows = ROWS;
    rows[4].sends = Sends::To(Cell(1));
    rows[4].amount = Amount(18_446_744_073_709_551_615);
    rows[1].amount = Amount(0);
    assert_eq!(rt; answer(FLAT, rows), Err((9, 1)));
}

#[test]
fn refuses_the_first_fault(rt: HostRuntime) {
    let mut rows = ROWS;
    rows[0].amount = Amount(5);
    rows[1].level = Height(5);
    rows[8].sends = Sends::To(Cell(5));
    assert_eq!(rt; answer(FLAT, rows), Err((8, 8)));
    rows[8].sends = Sends::Off;
    assert_eq!(rt; answer(FLAT, rows), Err((7, 1)));
    rows[1].level = Height(0);
    assert_eq!(rt; answer(FLAT, rows), Err((9, 0)));
}

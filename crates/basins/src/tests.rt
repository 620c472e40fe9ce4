// Basins of small models, worked out by hand. A cell's rain is one more than its number.
use crate::draining::drain_basins;
use crate::parting::{Basin, basin_at, find_basins};
use crate::short::Short;
use crate::tracing::exit_of;
use flood::sends::NONE as OFF;
use model::reading::read;
use model::slices::Slices;
use model::units::{Amount, Cell};
use std::test::Fail;

// 5 5 5 / 5 1 5 / 5 5 5
const HOLLOW: &[u8; 85] = b"\x03\0\x03\0\
    \x05\0\0\0\x01\0\0\0\x00\
    \x05\0\0\0\x02\0\0\0\x00\
    \x05\0\0\0\x03\0\0\0\x00\
    \x05\0\0\0\x04\0\0\0\x00\
    \x01\0\0\0\x05\0\0\0\x00\
    \x05\0\0\0\x06\0\0\0\x00\
    \x05\0\0\0\x07\0\0\0\x00\
    \x05\0\0\0\x08\0\0\0\x00\
    \x05\0\0\0\x09\0\0\0\x00";

// 12 12 12 12 12 / 6 1 3 9 2 / 12 12 12 12 12, where cell 6, which is 1 high, is a drain
const RIDGE: &[u8; 139] = b"\x05\0\x03\0\
    \x0c\0\0\0\x01\0\0\0\x00\
    \x0c\0\0\0\x02\0\0\0\x00\
    \x0c\0\0\0\x03\0\0\0\x00\
    \x0c\0\0\0\x04\0\0\0\x00\
    \x0c\0\0\0\x05\0\0\0\x00\
    \x06\0\0\0\x06\0\0\0\x00\
    \x01\0\0\0\x07\0\0\0\x01\
    \x03\0\0\0\x08\0\0\0\x00\
    \x09\0\0\0\x09\0\0\0\x00\
    \x02\0\0\0\x0a\0\0\0\x00\
    \x0c\0\0\0\x0b\0\0\0\x00\
    \x0c\0\0\0\x0c\0\0\0\x00\
    \x0c\0\0\0\x0d\0\0\0\x00\
    \x0c\0\0\0\x0e\0\0\0\x00\
    \x0c\0\0\0\x0f\0\0\0\x00";

// Drains the model in the bytes, of at most 15 cells, and finds its basins.
fn find(
    bytes: &[u8],
    flow: &mut [u32],
    amounts: &mut [u64],
    exits: &mut [u32],
    cells: &mut [u32],
) -> Result<(), Fail> {
    let (mut levels, mut work) = ([0; 15], [0; 45]);
    let mut slices = Slices {
        levels: &mut levels,
        flow,
        amounts,
        work: &mut work,
    };
    drain_basins(&read(bytes)?, &mut slices, exits, cells)?;
    Ok(())
}

// Of rims that are equally high, the water takes the one with the lowest number.
#[test]
fn hollow_leaves_over_its_first_rim(rt: HostRuntime) -> Result<(), Fail> {
    let (mut flow, mut amounts, mut exits, mut cells) = ([0; 9], [0; 9], [0; 9], [0; 9]);
    find(HOLLOW, &mut flow, &mut amounts, &mut exits, &mut cells)?;
    assert_eq!(rt; exits, [0, 1, 2, 3, 1, 5, 6, 7, 8]);
    assert_eq!(rt; cells, [1, 2, 1, 1, 0, 1, 1, 1, 1]);
    assert_eq!(rt; exit_of(&flow, Cell(4)), Some(Cell(1)));
    assert_eq!(rt; basin_at(&flow, &amounts, &cells, Cell(4)), None);
    Ok(())
}

// With a rim that is 3 high at cell 5, it leaves there.
#[test]
fn spill_leaves_over_the_lowest_rim(rt: HostRuntime) -> Result<(), Fail> {
    let mut bytes = *HOLLOW;
    bytes[49] = 3;
    let (mut flow, mut amounts, mut exits, mut cells) = ([0; 9], [0; 9], [0; 9], [0; 9]);
    find(&bytes, &mut flow, &mut amounts, &mut exits, &mut cells)?;
    assert_eq!(rt; exits, [0, 1, 2, 3, 5, 5, 6, 7, 8]);
    let basin = Basin {
        outlet: Cell(5),
        cells: 2,
        amount: Amount(11),
    };
    assert_eq!(rt; basin_at(&flow, &amounts, &cells, Cell(5)), Some(basin));
    Ok(())
}

// The ridge, cell 8, parts the basin of the drain from that of cell 9.
#[test]
fn ridge_parts_two_basins(rt: HostRuntime) -> Result<(), Fail> {
    let (mut flow, mut amounts, mut exits, mut cells) = ([0; 15], [0; 15], [0; 15], [0; 15]);
    find(RIDGE, &mut flow, &mut amounts, &mut exits, &mut cells)?;
    assert_eq!(rt; exits, [0, 1, 2, 3, 4, 5, 6, 6, 9, 9, 10, 11, 12, 13, 14]);
    assert_eq!(rt; cells, [1, 1, 1, 1, 1, 1, 2, 0, 0, 2, 1, 1, 1, 1, 1]);
    assert_eq!(rt; (amounts[6], amounts[9]), (15, 19));
    Ok(())
}

// A way that comes round again, a code that is no cell, and a cell that is none.
#[test]
fn some_ways_have_no_exit(rt: HostRuntime) {
    assert_eq!(rt; exit_of(&[1, 0, OFF], Cell(0)), None);
    assert_eq!(rt; exit_of(&[3, 0, OFF], Cell(1)), None);
    assert_eq!(rt; exit_of(&[1, 2, OFF], Cell(3)), None);
    assert_eq!(rt; exit_of(&[1, 2, OFF], Cell(0)), Some(Cell(2)));
}

// A slice that is too short is refused, and nothing is written.
#[test]
fn refusals_change_nothing(rt: HostRuntime) -> Result<(), Fail> {
    let model = read(HOLLOW)?;
    let (mut exits, mut cells) = ([7; 9], [7; 9]);
    assert_eq!(rt;
        find_basins(&model, &[0; 9], &[0; 17], &mut exits, &mut cells),
        Err(Short::Work)
    );
    assert_eq!(rt;
        find_basins(&model, &[0; 9], &[0; 18], &mut exits, &mut cells[0..8]),
        Err(Short::Cells)
    );
    assert!(rt; exits == [7; 9] && cells == [7; 9]);
    Ok(())
}

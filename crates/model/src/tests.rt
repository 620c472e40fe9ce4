// Examples of reading, values, neighbours and writes, worked out by hand from the layout of a model file.
use crate::edits::{write_drain, write_height, write_rain};
use crate::reading::read;
use crate::refusal::{Lent, Refusal};
use crate::units::{Amount, Cell, Height};
use std::test::Fail;

// Two columns and two rows; cell 3 is a drain.
const SQUARE: [u8; 40] = [
    2, 0, 2, 0, //
    7, 0, 0, 0, 1, 0, 0, 0, 0, //
    0, 1, 0, 0, 2, 0, 0, 0, 0, //
    0, 0, 1, 0, 3, 0, 0, 0, 0, //
    64, 66, 15, 0, 64, 66, 15, 0, 1, //
];

// Whether bytes are taken, or else the number and the place of the refusal, which are what is printed.
fn answer(bytes: &[u8]) -> Result<(), (u32, usize)> {
    match read(bytes) {
        Ok(_) => Ok(()),
        Err(refusal) => Err((refusal.number(), refusal.place())),
    }
}

#[test]
fn reads_the_sizes(rt: HostRuntime) {
    assert_eq!(rt; answer(&[]), Err((1, 0)));
    assert_eq!(rt; answer(&[0, 0, 0]), Err((1, 3)));
    assert_eq!(rt; answer(&[0, 0, 145, 1]), Err((2, 0)));
    assert_eq!(rt; answer(&[145, 1, 1, 0]), Err((2, 0)));
    assert_eq!(rt; answer(&[144, 1, 0, 0]), Err((2, 2)));
    assert_eq!(rt; answer(&[1, 0, 145, 1]), Err((2, 2)));
    assert_eq!(rt; answer(&[144, 1, 144, 1]), Err((1, 4)));
}

#[test]
fn reads_a_cell_field_after_field(rt: HostRuntime) {
    assert_eq!(rt; answer(&[1, 0, 1, 0, 5, 0, 0]), Err((1, 7)));
    assert_eq!(rt; answer(&[1, 0, 1, 0, 65, 66, 15, 0]), Err((3, 4)));
    assert_eq!(rt; answer(&[1, 0, 1, 0, 64, 66, 15, 0]), Err((1, 8)));
    assert_eq!(rt;
        answer(&[1, 0, 1, 0, 5, 0, 0, 0, 65, 66, 15, 0]),
        Err((3, 8))
    );
    assert_eq!(rt; answer(&[1, 0, 1, 0, 5, 0, 0, 0, 1, 0, 0, 0]), Err((1, 12)));
    assert_eq!(rt;
        answer(&[1, 0, 1, 0, 5, 0, 0, 0, 1, 0, 0, 0, 2]),
        Err((3, 12))
    );
    assert_eq!(rt; answer(&[1, 0, 1, 0, 5, 0, 0, 0, 1, 0, 0, 0, 0]), Ok(()));
    assert_eq!(rt;
        answer(&[1, 0, 1, 0, 5, 0, 0, 0, 1, 0, 0, 0, 0, 9]),
        Err((1, 13))
    );
}

#[test]
fn numbers_every_refusal(rt: HostRuntime) {
    assert_eq!(rt;
        (
            Refusal::Short(Lent::Work).number(),
            Refusal::Short(Lent::Work).place(),
        ),
        (4, 3)
    );
    assert_eq!(rt;
        (Refusal::Change(7).number(), Refusal::Change(7).place()),
        (5, 7)
    );
    assert_eq!(rt;
        (Refusal::Table(20).number(), Refusal::Table(20).place()),
        (6, 20)
    );
    assert_eq!(rt;
        (
            Refusal::Level(Cell(3)).number(),
            Refusal::Level(Cell(3)).place(),
        ),
        (7, 3)
    );
    assert_eq!(rt;
        (
            Refusal::Sends(Cell(3)).number(),
            Refusal::Sends(Cell(3)).place(),
        ),
        (8, 3)
    );
    assert_eq!(rt;
        (
            Refusal::Amount(Cell(3)).number(),
            Refusal::Amount(Cell(3)).place(),
        ),
        (9, 3)
    );
}

#[test]
fn knows_values_and_neighbours(rt: HostRuntime) -> Result<(), Fail> {
    let model = read(&SQUARE)?;
    let grid = model.grid();
    assert_eq!(rt; model.height(Cell(1)), Some(Height(256)));
    assert_eq!(rt; model.height(Cell(3)), Some(Height(1_000_000)));
    assert_eq!(rt; model.height(Cell(4)), None);
    assert_eq!(rt; model.rain(Cell(2)), Some(Amount(3)));
    assert!(rt; model.is_drain(Cell(3)) && !model.is_drain(Cell(0)) && !model.is_drain(Cell(4)));
    assert!(rt; model.leaves(Cell(0)) && !model.leaves(Cell(4)));
    assert!(rt; grid.neighbours(Cell(0)) == [None, None, Some(Cell(1)), Some(Cell(2))]);
    assert!(rt; grid.neighbours(Cell(3)) == [Some(Cell(1)), Some(Cell(2)), None, None]);
    assert!(rt; grid.neighbours(Cell(4)) == [None, None, None, None]);
    Ok(())
}

#[test]
fn writes_one_value(rt: HostRuntime) -> Result<(), Fail> {
    let mut bytes = SQUARE;
    let grid = read(&SQUARE)?.grid();
    assert!(rt; write_height(grid, &mut bytes, Cell(4), Height(1)).is_err());
    assert!(rt; write_height(grid, &mut bytes, Cell(0), Height(1_000_001)).is_err());
    assert!(rt; write_rain(grid, &mut bytes, Cell(0), Amount(1_000_001)).is_err());
    assert!(rt; write_drain(grid, &mut bytes, Cell(4), true).is_err());
    assert!(rt; bytes == SQUARE);
    assert!(rt; write_height(grid, &mut bytes, Cell(1), Height(515)).is_ok());
    assert!(rt; write_rain(grid, &mut bytes, Cell(2), Amount(65_536)).is_ok());
    assert!(rt; write_drain(grid, &mut bytes, Cell(3), false).is_ok());
    let expected = [
        2, 0, 2, 0, //
        7, 0, 0, 0, 1, 0, 0, 0, 0, //
        3, 2, 0, 0, 2, 0, 0, 0, 0, //
        0, 0, 1, 0, 0, 0, 1, 0, 0, //
        64, 66, 15, 0, 64, 66, 15, 0, 0, //
    ];
    assert!(rt; bytes == expected);
    Ok(())
}

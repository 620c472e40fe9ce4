// Texts and what they ask for, and rows and what comes of them, worked out by hand.
use crate::answer::{Answer, Changed};
use crate::asked::{Asked, Change};
use crate::failure::Failure;
use crate::row::apply_row;
use crate::text::read_row;
use amounts::draining;
use model::refusal::{Lent, Refusal, Side};
use model::slices::Slices;
use model::units::{Amount, Cell, Height};
use std::alloc::Global;
use std::process::Abort;
use std::test::Fail;

fn asked(line: usize, change: Change) -> Asked {
    Asked {
        line,
        change: Some(change),
    }
}

fn height(line: usize, cell: u32, value: u32) -> Asked {
    asked(line, Change::Height(Cell(cell), Height(value)))
}

fn rain(line: usize, cell: u32, value: u64) -> Asked {
    asked(line, Change::Rain(Cell(cell), Amount(value)))
}

fn drain(line: usize, cell: u32, mark: bool) -> Asked {
    asked(line, Change::Drain(Cell(cell), mark))
}

fn no_change(line: usize) -> Asked {
    Asked { line, change: None }
}

fn reads(rt: &impl Abort, heap: Global, text: &[u8], expected: &[Asked]) -> Result<(), Fail> {
    let row = read_row(heap, text)?;
    assert!(rt; row.as_slice() == expected);
    Ok(())
}

#[test]
fn reads_the_three_changes(rt: HostRuntime) -> Result<(), Fail> {
    let heap = rt.alloc();
    reads(
        &rt,
        heap,
        b"height 7 250\nrain 0 9\n",
        &[height(1, 7, 250), rain(2, 0, 9)],
    )?;
    reads(
        &rt,
        heap,
        b"drain 3 1\r\ndrain 3 0",
        &[drain(1, 3, true), drain(2, 3, false)],
    )
}

#[test]
fn numbers_lines_and_counts_changes(rt: HostRuntime) -> Result<(), Fail> {
    let heap = rt.alloc();
    reads(&rt, heap, b"", &[])?;
    reads(&rt, heap, b"\n\r\n# rain 1 1\n", &[])?;
    reads(
        &rt,
        heap,
        b"#\n\r\nrain 1 2\r\n\n\nmud\n# end",
        &[rain(3, 1, 2), no_change(6)],
    )
}

#[test]
fn reads_numbers_of_any_length(rt: HostRuntime) -> Result<(), Fail> {
    let heap = rt.alloc();
    reads(
        &rt,
        heap,
        b"height 007 00000000000000000012",
        &[height(1, 7, 12)],
    )?;
    reads(&rt, heap, b"drain 0 01", &[drain(1, 0, true)])?;
    reads(
        &rt,
        heap,
        b"height 4294967294 4294967295",
        &[height(1, 4_294_967_294, 4_294_967_295)],
    )?;
    reads(
        &rt,
        heap,
        b"rain 1 4294967296",
        &[rain(1, 1, 4_294_967_295)],
    )?;
    reads(
        &rt,
        heap,
        b"rain 99999999999999999999 1",
        &[rain(1, 4_294_967_295, 1)],
    )
}

#[test]
fn knows_what_is_no_change(rt: HostRuntime) -> Result<(), Fail> {
    let heap = rt.alloc();
    reads(
        &rt,
        heap,
        b"rain  1 2\nrain 1 2 \n rain 1 2",
        &[no_change(1), no_change(2), no_change(3)],
    )?;
    reads(
        &rt,
        heap,
        b"rain 1\nrain 1 2 3\nrain",
        &[no_change(1), no_change(2), no_change(3)],
    )?;
    reads(
        &rt,
        heap,
        b"rain +1 2\nrain 1 -2\nrain 1 2x",
        &[no_change(1), no_change(2), no_change(3)],
    )?;
    reads(
        &rt,
        heap,
        b"Rain 1 2\nrains 1 2\ndrain 1 2",
        &[no_change(1), no_change(2), no_change(3)],
    )?;
    reads(
        &rt,
        heap,
        b"rain 1 \nrain 1\t2\n \nrain 1 2\r\r",
        &[no_change(1), no_change(2), no_change(3), no_change(4)],
    )
}

// Three by three cells with a hollow in the middle and a gap in the rim, rain 1 on each.
const SPILL: [u8; 85] = [
    3, 0, 3, 0, //
    5, 0, 0, 0, 1, 0, 0, 0, 0, //
    5, 0, 0, 0, 1, 0, 0, 0, 0, //
    5, 0, 0, 0, 1, 0, 0, 0, 0, //
    5, 0, 0, 0, 1, 0, 0, 0, 0, //
    1, 0, 0, 0, 1, 0, 0, 0, 0, //
    3, 0, 0, 0, 1, 0, 0, 0, 0, //
    5, 0, 0, 0, 1, 0, 0, 0, 0, //
    5, 0, 0, 0, 1, 0, 0, 0, 0, //
    5, 0, 0, 0, 1, 0, 0, 0, 0, //
];

fn done(leaves: u64, levels: u32) -> Answer {
    Ok(Changed {
        leaves: Amount(leaves),
        levels,
    })
}

fn refused(change: usize) -> Answer {
    Err(Refusal::Change(change))
}

// Applies a row to the model with the gap, compares its answers, and the slices with those of a fresh drain.
fn answers(rt: &impl Abort, heap: Global, text: &[u8], expected: &[Answer]) -> Result<(), Fail> {
    let mut bytes = SPILL;
    let mut levels = [7u32; 9];
    let mut flow = [7u32; 9];
    let mut amounts = [7u64; 9];
    let mut work = [7u64; 27];
    let mut slices = Slices {
        levels: &mut levels,
        flow: &mut flow,
        amounts: &mut amounts,
        work: &mut work,
    };
    let row = read_row(heap, text)?;
    let Ok(given) = apply_row(heap, &mut bytes, &mut slices, &row) else {
        return Err(Fail::new("the row is not applied"));
    };
    assert!(rt; given.as_slice() == expected);
    let mut fresh = ([0u32; 9], [0u32; 9], [0u64; 9], [0u64; 27]);
    let mut slices = Slices {
        levels: &mut fresh.0,
        flow: &mut fresh.1,
        amounts: &mut fresh.2,
        work: &mut fresh.3,
    };
    assert!(rt; draining::drain(&bytes, &mut slices).is_ok());
    assert!(rt; levels == fresh.0 && flow == fresh.1);
    assert!(rt; amounts == fresh.2 && work == fresh.3);
    Ok(())
}

#[test]
fn fills_and_empties_a_hollow(rt: HostRuntime) -> Result<(), Fail> {
    let heap = rt.alloc();
    answers(&rt, heap, b"", &[])?;
    answers(
        &rt,
        heap,
        b"height 5 5\nheight 5 3\ndrain 4 1\ndrain 4 0\n",
        &[done(9, 2), done(9, 2), done(9, 1), done(9, 1)],
    )?;
    answers(
        &rt,
        heap,
        b"rain 4 3\nrain 4 0\nrain 5 1000000\n",
        &[done(11, 0), done(8, 0), done(1_000_007, 0)],
    )
}

#[test]
fn refuses_in_the_middle_of_a_row(rt: HostRuntime) -> Result<(), Fail> {
    answers(
        &rt,
        rt.alloc(),
        b"rain 4 2\nheight 9 1\nheight 0 1000001\nmud\nrain 0 1000001\ndrain 9 1\nheight 4 1000000\n",
        &[
            done(10, 0),
            refused(1),
            refused(2),
            refused(3),
            refused(4),
            refused(5),
            done(10, 1),
        ],
    )
}

#[test]
fn refuses_a_model_or_a_slice_and_writes_nothing(rt: HostRuntime) -> Result<(), Fail> {
    let heap = rt.alloc();
    let mut levels = [7u32; 9];
    let mut flow = [7u32; 9];
    let mut amounts = [7u64; 9];
    let mut work = [7u64; 27];
    let row = read_row(heap, b"rain 4 2")?;
    let row = row.as_slice();
    let mut bytes = SPILL;
    let mut slices = Slices {
        levels: &mut levels,
        flow: &mut flow,
        amounts: &mut amounts,
        work: &mut work[..26],
    };
    let short = apply_row(heap, &mut bytes, &mut slices, row);
    assert!(rt; matches!(short, Err(Failure::Refused(Refusal::Short(Lent::Work)))));
    assert!(rt; bytes == SPILL && levels == [7; 9]);
    bytes[0] = 0;
    let mut slices = Slices {
        levels: &mut levels,
        flow: &mut flow,
        amounts: &mut amounts,
        work: &mut work,
    };
    let wrong = apply_row(heap, &mut bytes, &mut slices, row);
    assert!(rt; matches!(wrong, Err(Failure::Refused(Refusal::Size(Side::Columns)))));
    assert!(rt; flow == [7; 9] && amounts == [7; 9] && work == [7; 27]);
    Ok(())
}

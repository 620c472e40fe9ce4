// Small models whose levels and flow were worked out by hand. OFF is the code of off the land.
use crate::flooding::flood;
use crate::sends::NONE as OFF;
use model::edits::{write_drain, write_height};
use model::reading::read;
use model::refusal::{Lent, Refusal};
use model::units::{Cell, Height};
use std::process::Abort;
use std::test::Fail;

// Gives nine cells their heights, and one of them a drain.
fn raise(
    rt: &impl Abort,
    bytes: &mut [u8],
    heights: [u32; 9],
    drain: Option<u32>,
) -> Result<(), Fail> {
    let grid = read(bytes)?.grid();
    for (c, height) in heights.iter().enumerate() {
        assert!(rt; write_height(grid, bytes, Cell(c as u32), Height(*height)).is_ok());
    }
    if let Some(c) = drain {
        assert!(rt; write_drain(grid, bytes, Cell(c), true).is_ok());
    }
    Ok(())
}

// What the flood gives for nine cells in rows of `w`, one of which may be a drain: levels and flow.
fn flooded(
    rt: &impl Abort,
    w: u8,
    h: u8,
    heights: [u32; 9],
    drain: Option<u32>,
) -> Result<([u32; 9], [u32; 9]), Fail> {
    let mut bytes = [0u8; 85];
    bytes[0] = w;
    bytes[2] = h;
    raise(rt, &mut bytes, heights, drain)?;
    let mut levels = [0u32; 9];
    let mut flow = [0u32; 9];
    let mut work = [0u64; 27];
    flood(&read(&bytes)?, &mut levels, &mut flow, &mut work)?;
    Ok((levels, flow))
}

// A hollow is filled to its rim, and sends to the first cell taken next to it.
#[test]
fn fills_a_hollow(rt: HostRuntime) -> Result<(), Fail> {
    let (levels, flow) = flooded(&rt, 3, 3, [5, 5, 5, 5, 1, 5, 5, 5, 5], None)?;
    assert!(rt; levels == [5, 5, 5, 5, 5, 5, 5, 5, 5]);
    assert!(rt; flow == [OFF, OFF, OFF, OFF, 1, OFF, OFF, OFF, OFF]);
    Ok(())
}

// Water stands as high as the lowest gap in the rim, and leaves there.
#[test]
fn spills_over_the_lowest_gap(rt: HostRuntime) -> Result<(), Fail> {
    let (levels, flow) = flooded(&rt, 3, 3, [5, 5, 5, 5, 1, 3, 5, 5, 5], None)?;
    assert!(rt; levels == [5, 5, 5, 5, 3, 3, 5, 5, 5]);
    assert!(rt; flow == [OFF, OFF, OFF, OFF, 5, OFF, OFF, OFF, OFF]);
    Ok(())
}

// A drain in the middle of a pond empties it.
#[test]
fn empties_at_a_drain(rt: HostRuntime) -> Result<(), Fail> {
    let (levels, flow) = flooded(&rt, 3, 3, [5, 5, 5, 5, 1, 5, 5, 5, 5], Some(4))?;
    assert!(rt; levels == [5, 5, 5, 5, 1, 5, 5, 5, 5]);
    assert!(rt; flow == [OFF, OFF, OFF, OFF, OFF, OFF, OFF, OFF, OFF]);
    Ok(())
}

// On flat land nothing is raised, and the middle sends up.
#[test]
fn leaves_flat_land(rt: HostRuntime) -> Result<(), Fail> {
    let (levels, flow) = flooded(&rt, 3, 3, [7, 7, 7, 7, 7, 7, 7, 7, 7], None)?;
    assert!(rt; levels == [7, 7, 7, 7, 7, 7, 7, 7, 7]);
    assert!(rt; flow == [OFF, OFF, OFF, OFF, 1, OFF, OFF, OFF, OFF]);
    Ok(())
}

// In one row or one column every cell is an outlet.
#[test]
fn drains_a_row_and_a_column(rt: HostRuntime) -> Result<(), Fail> {
    let heights = [9, 2, 7, 3, 4, 0, 9, 1, 9];
    let all_off = [OFF, OFF, OFF, OFF, OFF, OFF, OFF, OFF, OFF];
    let (levels, flow) = flooded(&rt, 9, 1, heights, None)?;
    assert!(rt; levels == heights && flow == all_off);
    let (levels, flow) = flooded(&rt, 1, 9, heights, None)?;
    assert!(rt; levels == heights && flow == all_off);
    Ok(())
}

// A slice that is too short is named, and nothing is written; what lies behind a longer one stays.
#[test]
fn keeps_what_it_must(rt: HostRuntime) -> Result<(), Fail> {
    let bytes = [1, 0, 1, 0, 4, 0, 0, 0, 1, 0, 0, 0, 0];
    let model = read(&bytes)?;
    let mut levels = [8u32, 8];
    let mut flow = [8u32, 8];
    let mut work = [8u64, 8, 8, 8];
    assert_eq!(rt;
        flood(&model, &mut levels[0..0], &mut flow, &mut work),
        Err(Refusal::Short(Lent::Levels))
    );
    assert_eq!(rt;
        flood(&model, &mut levels, &mut flow, &mut work[0..2]),
        Err(Refusal::Short(Lent::Work))
    );
    assert!(rt; levels == [8, 8] && flow == [8, 8] && work == [8, 8, 8, 8]);
    assert_eq!(rt; flood(&model, &mut levels, &mut flow, &mut work), Ok(0));
    assert!(rt;
        levels == [4, 8] && flow == [OFF, 8] && work[1] == 0 && work[2] == 0 && work[3] == 8
    );
    Ok(())
}

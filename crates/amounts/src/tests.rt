// Small models drained whole; levels, flow and amounts were worked out by hand. OFF is the code of off the land.
use crate::answer::Drained;
use crate::draining::drain;
use flood::sends::NONE as OFF;
use model::edits::{write_drain, write_height, write_rain};
use model::grid::Grid;
use model::reading::read;
use model::refusal::{Lent, Refusal};
use model::slices::Slices;
use model::units::{Amount, Cell, Height};
use std::process::Abort;
use std::test::Fail;

// Gives nine cells their heights and a rain of 1 each, and one of them a drain. The tests of flood have one like it, without rain:
// tests of two crates share no code but what is public in a library, and this is not for others.
fn raise(
    rt: &impl Abort,
    bytes: &mut [u8],
    grid: Grid,
    heights: [u32; 9],
    drain: Option<u32>,
) -> Result<(), Fail> {
    for (c, height) in heights.iter().enumerate() {
        let cell = Cell(c as u32);
        assert!(rt; write_height(grid, bytes, cell, Height(*height)).is_ok());
        assert!(rt; write_rain(grid, bytes, cell, Amount(1)).is_ok());
    }
    if let Some(c) = drain {
        assert!(rt; write_drain(grid, bytes, Cell(c), true).is_ok());
    }
    Ok(())
}

// Drains three by three cells, and compares what comes out.
fn expect(
    rt: &impl Abort,
    heights: [u32; 9],
    drain_at: Option<u32>,
    levels_are: [u32; 9],
    flow_is: [u32; 9],
    amounts_are: [u64; 9],
) -> Result<(), Fail> {
    let mut bytes = [0u8; 85];
    bytes[0] = 3;
    bytes[2] = 3;
    let grid = read(&bytes)?.grid();
    raise(rt, &mut bytes, grid, heights, drain_at)?;
    let mut levels = [0u32; 9];
    let mut flow = [0u32; 9];
    let mut amounts = [0u64; 9];
    let mut work = [0u64; 27];
    let mut slices = Slices {
        levels: &mut levels,
        flow: &mut flow,
        amounts: &mut amounts,
        work: &mut work,
    };
    let answer = drain(&bytes, &mut slices)?;
    assert!(rt; answer.rain.0 == 9 && answer.leaves.0 == 9);
    assert!(rt; levels == levels_are);
    assert!(rt; flow == flow_is);
    assert!(rt; amounts == amounts_are);
    Ok(())
}

#[test]
fn drains_a_hollow(rt: HostRuntime) -> Result<(), Fail> {
    expect(
        &rt,
        [5, 5, 5, 5, 1, 5, 5, 5, 5],
        None,
        [5, 5, 5, 5, 5, 5, 5, 5, 5],
        [OFF, OFF, OFF, OFF, 1, OFF, OFF, OFF, OFF],
        [1, 2, 1, 1, 1, 1, 1, 1, 1],
    )
}

#[test]
fn drains_over_a_gap(rt: HostRuntime) -> Result<(), Fail> {
    expect(
        &rt,
        [5, 5, 5, 5, 1, 3, 5, 5, 5],
        None,
        [5, 5, 5, 5, 3, 3, 5, 5, 5],
        [OFF, OFF, OFF, OFF, 5, OFF, OFF, OFF, OFF],
        [1, 1, 1, 1, 1, 2, 1, 1, 1],
    )
}

#[test]
fn drains_at_a_drain(rt: HostRuntime) -> Result<(), Fail> {
    expect(
        &rt,
        [5, 5, 5, 5, 1, 5, 5, 5, 5],
        Some(4),
        [5, 5, 5, 5, 1, 5, 5, 5, 5],
        [OFF, OFF, OFF, OFF, OFF, OFF, OFF, OFF, OFF],
        [1, 1, 1, 1, 1, 1, 1, 1, 1],
    )
}

// Slices are refused after the bytes, in their order, and nothing is written.
#[test]
fn refuses_and_keeps(rt: HostRuntime) {
    let cell = [1, 0, 1, 0, 4, 0, 0, 0, 7, 0, 0, 0, 0];
    let mut levels = [8u32];
    let mut flow = [8u32];
    let mut amounts = [8u64];
    let mut work = [8u64, 8, 8];
    let mut slices = Slices {
        levels: &mut levels[0..0],
        flow: &mut flow,
        amounts: &mut amounts,
        work: &mut work,
    };
    assert_eq!(rt; drain(&cell[0..12], &mut slices), Err(Refusal::Length(12)));
    let mut slices = Slices {
        levels: &mut levels,
        flow: &mut flow,
        amounts: &mut amounts[0..0],
        work: &mut work[0..0],
    };
    assert_eq!(rt;
        drain(&cell, &mut slices),
        Err(Refusal::Short(Lent::Amounts))
    );
    let mut slices = Slices {
        levels: &mut levels,
        flow: &mut flow,
        amounts: &mut amounts,
        work: &mut work[0..2],
    };
    assert_eq!(rt; drain(&cell, &mut slices), Err(Refusal::Short(Lent::Work)));
    assert!(rt; levels == [8] && flow == [8] && amounts == [8] && work == [8, 8, 8]);
    let answer = Drained {
        looks: 0,
        rain: Amount(7),
        leaves: Amount(7),
    };
    let mut slices = Slices {
        levels: &mut levels,
        flow: &mut flow,
        amounts: &mut amounts,
        work: &mut work,
    };
    assert_eq!(rt; drain(&cell, &mut slices), Ok(answer));
    assert!(rt; levels == [4] && flow == [OFF] && amounts == [7]);
}

// Models made from a row of numbers.
use crate::land::{Ground, Spot};
use crate::numbers::Dice;
use std::alloc::{AllocError, Global};

// What the cells of one model are drawn from.
#[derive(Clone, Copy)]
struct Kind {
    heights: u32,
    rains: u32,
    drains: u32,
}

// Few heights make many ties, few numbers for a drain make many drains.
fn some_kind(dice: &mut Dice) -> Kind {
    let heights = match dice.below(4) {
        0 => 2,
        1 => 5,
        2 => 30,
        _ => 1_000_001,
    };
    let rains = match dice.below(3) {
        0 => 1,
        1 => 6,
        _ => 1_000_001,
    };
    let drains = match dice.below(3) {
        0 => 5,
        1 => 30,
        _ => 1_000_000,
    };
    Kind {
        heights,
        rains,
        drains,
    }
}

fn some_spot(dice: &mut Dice, kind: Kind) -> Spot {
    Spot {
        height: dice.below(kind.heights),
        rain: dice.below(kind.rains),
        drain: dice.below(kind.drains) == 0,
    }
}

// A model of some size.
pub fn some_ground(
    heap: Global,
    dice: &mut Dice,
    columns: u16,
    rows: u16,
) -> Result<Ground, AllocError> {
    let kind = some_kind(dice);
    let cells = u32::from(columns) * u32::from(rows);
    let spots = (0..cells).map(|_| some_spot(dice, kind)).collect(heap)?;
    Ok(Ground {
        columns,
        rows,
        spots,
    })
}

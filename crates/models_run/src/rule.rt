// Levels, flow, places and amounts by looking through all cells at each step.
use crate::land::Ground;
use crate::rows::Row;
use std::alloc::{AllocError, Global};

// What is known of a cell so far: its level and its place, if it has them, where it sends its water, and its amount.
#[derive(Clone, Copy)]
struct Known {
    level: Option<u32>,
    place: Option<u64>,
    sends: Option<usize>,
    amount: u64,
}

impl Known {
    // The cell's row, once it has a level and a place.
    fn row(self) -> Option<Row> {
        Some(Row {
            level: self.level?,
            place: self.place?,
            sends: self.sends,
            amount: self.amount,
        })
    }
}

// An outlet has its height as its level; nothing else is known at first.
fn known_first(heap: Global, ground: &Ground) -> Result<Vec<Known>, AllocError> {
    let spots = ground.spots.iter().enumerate();
    spots
        .map(|(cell, spot)| Known {
            level: ground.leaves(cell).then_some(spot.height),
            place: None,
            sends: None,
            amount: 0,
        })
        .collect(heap)
}

// The lowest level of the cells that have one and no place, and of these cells the one with the lowest number.
fn lowest_open(known: &[Known]) -> Option<(u32, usize)> {
    let open = known
        .iter()
        .enumerate()
        .filter(|(_, at)| at.place.is_none());
    open.filter_map(|(cell, at)| Some((at.level?, cell))).min()
}

// The cells beside a cell that have no level yet get one, and send to it.
fn open_beside(ground: &Ground, known: &mut [Known], cell: usize, level: u32) {
    for next in ground.beside(cell).into_iter().flatten() {
        if let Some(at) = known.get_mut(next)
            && at.level.is_none()
        {
            at.level = Some(level.max(ground.spot(next).height));
            at.sends = Some(cell);
        }
    }
}

// Places the cells one by one; the number counted is the place.
fn place_all(ground: &Ground, known: &mut [Known]) {
    for place in 0..known.len() {
        let Some((level, cell)) = lowest_open(known) else {
            break;
        };
        if let Some(at) = known.get_mut(cell) {
            at.place = Some(place as u64);
        }
        open_beside(ground, known, cell, level);
    }
}

// The rain on a cell comes to every cell on its way along the flow.
fn carry_rain(known: &mut [Known], cell: usize, rain: u32) {
    let mut next = Some(cell);
    for _ in 0..known.len() {
        let Some(at) = next.and_then(|cell| known.get_mut(cell)) else {
            break;
        };
        at.amount = at.amount.wrapping_add(u64::from(rain));
        next = at.sends;
    }
}

// What draining the model must give.
pub fn worked_out(heap: Global, ground: &Ground) -> Result<Vec<Row>, AllocError> {
    let mut known = known_first(heap, ground)?;
    place_all(ground, &mut known);
    for (cell, spot) in ground.spots.iter().enumerate() {
        carry_rain(&mut known, cell, spot.rain);
    }
    known.iter().filter_map(|at| at.row()).collect(heap)
}

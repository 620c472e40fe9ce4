// Levels by a flood at every height that occurs: a cell's level is the lowest height at which cells no higher join it to an outlet.
use crate::land::Ground;
use std::alloc::{AllocError, Global};
use std::collections::BTreeSet;

// Whether one of the cells beside a cell has a level.
fn touches(ground: &Ground, levels: &[Option<u32>], cell: usize) -> bool {
    let mut beside = ground.beside(cell).into_iter().flatten();
    beside.any(|side| levels.get(side).is_some_and(|level| level.is_some()))
}

// Gives a height as their level to the cells up to it that are outlets or touch one with a level; whether there was one more, as a set's
// insert says it.
fn spread(ground: &Ground, levels: &mut [Option<u32>], height: u32) -> bool {
    let mut more = false;
    for (cell, spot) in ground.spots.iter().enumerate() {
        let joined = ground.leaves(cell) || touches(ground, levels, cell);
        if let Some(level @ None) = levels.get_mut(cell)
            && spot.height <= height
            && joined
        {
            *level = Some(height);
            more = true;
        }
    }
    more
}

// The levels of all cells.
pub fn flooded_levels(heap: Global, ground: &Ground) -> Result<Vec<Option<u32>>, AllocError> {
    let heights = ground.spots.iter().map(|spot| spot.height);
    let heights: BTreeSet<u32> = heights.collect(heap)?;
    let mut levels = vec![in heap; None; ground.spots.len()]?;
    for height in &heights {
        for _ in &ground.spots {
            if !spread(ground, &mut levels, *height) {
                break;
            }
        }
    }
    Ok(levels)
}

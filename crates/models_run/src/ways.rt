// Levels by a search of all ways off the land that come to no cell twice.
use crate::land::Ground;
use std::alloc::{AllocError, Global};

// What the search looks at of a cell. Noted once for each, since most of the time goes into the search.
#[derive(Clone, Copy)]
struct Place {
    height: u32,
    leaves: bool,
    beside: [Option<usize>; 4],
}

// The lowest height of all ways that go on from a cell and have at most `left` cells more, if there is one. The highest cell so far is
// `top`; a way may come by outlets before it ends at one, and not by a cell that is on it.
fn lowest_from(
    places: &[Place],
    on_way: &mut [bool],
    cell: usize,
    top: u32,
    left: usize,
) -> Option<u32> {
    let place = places.get(cell)?;
    let top = top.max(place.height);
    let mut lowest = place.leaves.then_some(top);
    if left == 0 {
        return lowest;
    }
    *on_way.get_mut(cell)? = true;
    for next in place.beside.iter().flatten() {
        if on_way.get(*next) == Some(&false) {
            let way = lowest_from(places, on_way, *next, top, left - 1);
            lowest = match (lowest, way) {
                (Some(lowest), Some(way)) => Some(lowest.min(way)),
                (lowest, way) => lowest.or(way),
            };
        }
    }
    *on_way.get_mut(cell)? = false;
    lowest
}

// The lowest height of a way off the land from each cell.
pub fn lowest_ways(heap: Global, ground: &Ground) -> Result<Vec<Option<u32>>, AllocError> {
    let cells = ground.spots.len();
    let places: Vec<_> = (0..cells)
        .map(|cell| Place {
            height: ground.spot(cell).height,
            leaves: ground.leaves(cell),
            beside: ground.beside(cell),
        })
        .collect(heap)?;
    let mut on_way = vec![in heap; false; cells]?;
    (0..cells)
        .map(|cell| lowest_from(&places, &mut on_way, cell, 0, cells))
        .collect(heap)
}

// A model as a plain list of its cells, and which of them lie side by side.
use std::alloc::{AllocError, Global};

// The most that a height or a rain may be.
pub const MOST: u32 = 1_000_000;

// What a model says of a cell.
#[derive(Clone, Copy, Default)]
pub struct Spot {
    pub height: u32,
    pub rain: u32,
    pub drain: bool,
}

// The cells of a model, along its rows.
#[derive(Clone, Drop)]
pub struct Ground {
    pub columns: u16,
    pub rows: u16,
    pub spots: Vec<Spot>,
}

impl Ground {
    // How many cells there are.
    pub fn cells(&self) -> u32 {
        u32::from(self.columns) * u32::from(self.rows)
    }

    // What the model says of a cell; low, dry and no drain where there is no such cell.
    pub fn spot(&self, cell: usize) -> Spot {
        self.spots.get(cell).copied().unwrap_or_default()
    }

    // The cells above, left of, right of and below a cell, as far as there are such cells.
    pub fn beside(&self, cell: usize) -> [Option<usize>; 4] {
        let columns = usize::from(self.columns);
        let row = cell.checked_div(columns).unwrap_or(0);
        let column = cell.checked_rem(columns).unwrap_or(0);
        let last_row = row.saturating_add(1) == usize::from(self.rows);
        let last_column = column.saturating_add(1) == columns;
        [
            cell.checked_sub(columns).filter(|_| row > 0),
            cell.checked_sub(1).filter(|_| column > 0),
            cell.checked_add(1).filter(|_| !last_column),
            cell.checked_add(columns).filter(|_| !last_row),
        ]
    }

    // Whether water leaves the land from a cell: one at the edge, where a side is missing, or a drain.
    pub fn leaves(&self, cell: usize) -> bool {
        self.beside(cell).contains(&None) || self.spot(cell).drain
    }

    // All the rain on the model.
    pub fn all_rain(&self) -> u64 {
        self.spots
            .iter()
            .fold(0, |sum: u64, spot| sum.wrapping_add(u64::from(spot.rain)))
    }

    // The model's file.
    pub fn file(&self, heap: Global) -> Result<Vec<u8>, AllocError> {
        let mut bytes = Vec::new(heap);
        bytes.extend_from_slice(&self.columns.to_le_bytes())?;
        bytes.extend_from_slice(&self.rows.to_le_bytes())?;
        for spot in &self.spots {
            bytes.extend_from_slice(&spot.height.to_le_bytes())?;
            bytes.extend_from_slice(&spot.rain.to_le_bytes())?;
            bytes.push(u8::from(spot.drain))?;
        }
        Ok(bytes)
    }
}

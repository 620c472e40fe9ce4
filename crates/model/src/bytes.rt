// The bytes of a model file: whole numbers, low byte first, and the part that each cell has.
ghost use Rattle.std.specs.Prelude.{◌≡◌};
ghost use Rattle.model.specs.Bytes.{start, cell_part, if_whole, four, height_in, rain_in, mark_in};

use crate::limits::{CELL_BYTES, HEAD_BYTES};
use crate::units::Cell;

// Where the rain and the drain mark stand in the bytes of a cell, behind its height.
pub(crate) const RAIN_AT: usize = 4;

pub(crate) const MARK_AT: usize = 8;

// Where the bytes of a cell begin.
pub(crate) fn cell_start(cell: Cell) -> usize
    ensures { result ≡ start cell.0 }
{
    HEAD_BYTES + CELL_BYTES * cell.index()
}

// The bytes of a cell, as far as the file has them.
pub(crate) fn part_of(bytes: &[u8], cell: Cell) -> &[u8]
    ensures { result.now ≡ cell_part bytes.now cell.0 }
{
    let from = cell_start(cell).min(bytes.len());
    let to = (cell_start(cell) + CELL_BYTES).min(bytes.len());
    &bytes[from..to]
}

// The number in the first four bytes, if they are all there.
fn read_four(part: &[u8]) -> Option<u32>
    ensures { result ≡ if_whole part.now 4 (four part.now) }
{
    let bytes = part.first_chunk()?;
    Some(u32::from_le_bytes(*bytes))
}

// The height in a cell's bytes, if they hold it whole.
pub(crate) fn height_in(part: &[u8]) -> Option<u32>
    ensures { result ≡ height_in part.now }
{
    read_four(part)
}

// The rain in a cell's bytes, if they hold it whole.
pub(crate) fn rain_in(part: &[u8]) -> Option<u32>
    ensures { result ≡ rain_in part.now }
{
    read_four(part.get(RAIN_AT..)?)
}

// The drain mark in a cell's bytes, if they hold it.
pub(crate) fn mark_in(part: &[u8]) -> Option<u32>
    ensures { result ≡ mark_in part.now }
{
    let mark = part.get(MARK_AT)?;
    Some(u32::from(*mark))
}

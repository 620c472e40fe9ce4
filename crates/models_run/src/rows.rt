// What draining leaves of each cell, and the bytes of a table that say so. Written again on purpose, as the counting of changed levels and
// the reading of models are: code of the library would be compared with itself.
use std::alloc::{AllocError, Global};

// The bytes of a cell in a table.
pub const ROW_BYTES: usize = 20;

// The code of off the land, in a table and in the lent slices.
const OFF: u32 = u32::MAX;

// A cell's level, the cell that its water goes to if it stays on the land, its place in the order, and its amount.
#[derive(Clone, Copy, PartialEq, Eq, Debug)]
pub struct Row {
    pub level: u32,
    pub sends: Option<usize>,
    pub place: u64,
    pub amount: u64,
}

// The cell that a code stands for, if it is not off the land. From is no plainer: both types are std's, so one more type would be needed.
pub fn cell_of(code: u32) -> Option<usize> {
    (code != OFF).then_some(code as usize)
}

// The code of a cell, or of off the land.
fn code_of(sends: Option<usize>) -> u32 {
    sends.and_then(|to| u32::try_from(to).ok()).unwrap_or(OFF)
}

// The row in some bytes, if they hold it whole. TryFrom is no plainer: its error would have nothing to say.
fn read_row(bytes: &[u8]) -> Option<Row> {
    let (level, rest) = bytes.split_first_chunk()?;
    let (sends, rest) = rest.split_first_chunk()?;
    let (place, rest) = rest.split_first_chunk()?;
    let amount = rest.first_chunk()?;
    Some(Row {
        level: u32::from_le_bytes(*level),
        sends: cell_of(u32::from_le_bytes(*sends)),
        place: u64::from(u32::from_le_bytes(*place)),
        amount: u64::from_le_bytes(*amount),
    })
}

// The rows of a table.
pub fn read_rows(heap: Global, table: &[u8]) -> Result<Vec<Row>, AllocError> {
    table
        .chunks_exact(ROW_BYTES)
        .filter_map(read_row)
        .collect(heap)
}

// The table of some rows.
pub fn table_of(heap: Global, rows: &[Row]) -> Result<Vec<u8>, AllocError> {
    let mut table = Vec::new(heap);
    for row in rows {
        let place = u32::try_from(row.place).unwrap_or(0);
        table.extend_from_slice(&row.level.to_le_bytes())?;
        table.extend_from_slice(&code_of(row.sends).to_le_bytes())?;
        table.extend_from_slice(&place.to_le_bytes())?;
        table.extend_from_slice(&row.amount.to_le_bytes())?;
    }
    Ok(table)
}

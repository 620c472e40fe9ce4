// Rows of a table: for each cell its level, where it sends, its place in the order and its amount.
ghost use Rattle.std.specs.Prelude.{◌≡◌, if◌then◌else◌, is_ok};
ghost use Rattle.amounts.specs.Row.{row_start, has_row, row_at, bytes_of, put_row};

use flood::sends::Sends;
use model::slices::long_enough;
use model::units::{Amount, Cell, Height};

// The bytes of a row; specs/Row.antt says the same to the contracts.
pub const ROW_BYTES: usize = 20;

// Where the other values stand in the bytes of a row, behind the level.
const SENDS_AT: usize = 4;

const PLACE_AT: usize = 8;

const AMOUNT_AT: usize = 12;

// The table is too short to have a row for the cell.
#[derive(Clone, Copy, PartialEq, Eq, Debug)]
pub struct NoRow;

// What a table says of a cell.
#[derive(Clone, Copy, PartialEq, Eq, Debug)]
pub struct Row {
    pub level: Height,
    pub sends: Sends,
    pub place: u32,
    pub amount: Amount,
}

impl Row {
    // The bytes of the row, by a method like to_le_bytes of the library: From would be no plainer.
    pub fn to_bytes(self) -> [u8; ROW_BYTES]
        ensures { result ≡ bytes_of self }
    {
        let mut bytes = [0; ROW_BYTES];
        bytes[..SENDS_AT].copy_from_slice(&self.level.0.to_le_bytes());
        bytes[SENDS_AT..PLACE_AT].copy_from_slice(&u32::from(self.sends).to_le_bytes());
        bytes[PLACE_AT..AMOUNT_AT].copy_from_slice(&self.place.to_le_bytes());
        bytes[AMOUNT_AT..].copy_from_slice(&self.amount.0.to_le_bytes());
        bytes
    }
}

// Where the row of a cell begins.
fn row_start(cell: Cell) -> usize
    ensures { result ≡ row_start cell.0 }
{
    ROW_BYTES * cell.index()
}

// Writes the row of a cell. Nothing is written where the table is too short to have it.
pub fn write_row(table: &mut [u8], cell: Cell, row: Row) -> Result<(), NoRow>
    ensures done { is_ok result ≡ has_row table.old cell.0 }
    ensures table { table.new ≡ (if is_ok result then put_row table.old cell.0 (bytes_of row) else table.old) }
{
    let start = row_start(cell);
    long_enough(table, start + ROW_BYTES, NoRow)?;
    table[start..start + ROW_BYTES].copy_from_slice(&row.to_bytes());
    Ok(())
}

// The row of a cell, if the table has it.
pub fn read_row(table: &[u8], cell: Cell) -> Option<Row>
    ensures { result ≡ row_at table.now cell.0 }
{
    let part = table.get(row_start(cell)..)?.first_chunk::<ROW_BYTES>()?;
    let (level, part) = part.split_first_chunk()?;
    let (sends, part) = part.split_first_chunk()?;
    let (place, part) = part.split_first_chunk()?;
    let amount = part.first_chunk()?;
    Some(Row {
        level: Height(u32::from_le_bytes(*level)),
        sends: Sends::from(u32::from_le_bytes(*sends)),
        place: u32::from_le_bytes(*place),
        amount: Amount(u64::from_le_bytes(*amount)),
    })
}

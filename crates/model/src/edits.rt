// Writing a cell's height, rain or drain mark into lent bytes.
// Grid and bytes go side by side: a row of changes keeps them in a struct, and of a struct that holds a &mut in another no proof is made.
ghost use Rattle.std.specs.Prelude.{◌≡◌, ◌+◌, ◌≤◌, ◌&&◌, length, if◌then◌else◌, is_ok, nat_le};
ghost use Rattle.model.specs.Bytes.{start};
ghost use Rattle.model.specs.Edits.{put_four, fits_cell, with_height, with_rain, with_mark};
ghost use Rattle.model.specs.Limits.{max_height, max_rain};

use crate::bytes::{MARK_AT, RAIN_AT, cell_start};
use crate::grid::Grid;
use crate::limits::{CELL_BYTES, MAX_HEIGHT, MAX_RAIN};
use crate::units::{Amount, Cell, Height};

// There is no such cell, or the value is out of range.
#[derive(Clone, Copy, PartialEq, Eq, Debug)]
pub struct OutOfRange;

// A number into four bytes, low byte first. Not by copy_from_slice: it was tried, and that it is the four writes of the definition did
// not follow.
fn write_four(bytes: &mut [u8], at: usize, value: u32)
    requires { at + 4 ≤ length bytes.old }
    ensures { bytes.new ≡ put_four bytes.old at value }
{
    let [a, b, c, d] = value.to_le_bytes();
    bytes[at] = a;
    bytes[at + 1] = b;
    bytes[at + 2] = c;
    bytes[at + 3] = d;
}

// Whether the grid has the cell, and the bytes hold it whole.
fn holds(grid: Grid, bytes: &[u8], cell: Cell) -> bool
    ensures { result ≡ fits_cell grid bytes.now cell }
{
    grid.contains(cell) && cell_start(cell) + CELL_BYTES <= bytes.len()
}

// Writes a number of at most `most` into the four bytes of a cell from `at` on. Nothing is written where it is refused.
fn write_number(
    grid: Grid,
    bytes: &mut [u8],
    cell: Cell,
    at: usize,
    value: u64,
    most: u32,
) -> Result<(), OutOfRange>
    requires { at ≤ 5 }
    ensures done { is_ok result ≡ (fits_cell grid bytes.old cell && nat_le value most) }
    ensures bytes { bytes.new ≡ (if is_ok result then put_four bytes.old (start cell.0 + at) value else bytes.old) }
{
    if !holds(grid, bytes, cell) || value > u64::from(most) {
        return Err(OutOfRange);
    }
    write_four(bytes, cell_start(cell) + at, value as u32);
    Ok(())
}

// Gives a cell another height. Nothing is written where there is no such cell or the height is out of range.
pub fn write_height(
    grid: Grid,
    bytes: &mut [u8],
    cell: Cell,
    height: Height,
) -> Result<(), OutOfRange>
    ensures done { is_ok result ≡ (fits_cell grid bytes.old cell && nat_le height.0 max_height) }
    ensures bytes { bytes.new ≡ with_height (is_ok result) bytes.old cell height }
{
    write_number(grid, bytes, cell, 0, u64::from(height.0), MAX_HEIGHT)
}

// Gives a cell another rain. Nothing is written where there is no such cell or the rain is out of range.
pub fn write_rain(grid: Grid, bytes: &mut [u8], cell: Cell, rain: Amount) -> Result<(), OutOfRange>
    ensures done { is_ok result ≡ (fits_cell grid bytes.old cell && nat_le rain.0 max_rain) }
    ensures bytes { bytes.new ≡ with_rain (is_ok result) bytes.old cell rain }
{
    write_number(grid, bytes, cell, RAIN_AT, rain.0, MAX_RAIN)
}

// Marks a cell as a drain, or takes the mark away. Nothing is written where there is no such cell.
pub fn write_drain(grid: Grid, bytes: &mut [u8], cell: Cell, drain: bool) -> Result<(), OutOfRange>
    ensures done { is_ok result ≡ fits_cell grid bytes.old cell }
    ensures bytes { bytes.new ≡ with_mark (is_ok result) bytes.old cell drain }
{
    if !holds(grid, bytes, cell) {
        return Err(OutOfRange);
    }
    bytes[cell_start(cell) + MARK_AT] = u8::from(drain);
    Ok(())
}

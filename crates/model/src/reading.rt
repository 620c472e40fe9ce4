// Reading a model file front to back: the model, or its first fault.
ghost use Rattle.std.specs.Prelude.{◌≡◌, ◌≤◌, length, IfOk, MatchResult};
ghost use Rattle.std.specs.Result.{result_err};
ghost use Rattle.model.specs.Faults.{field_fault, cell_fault, head_fault, fault};
ghost use Rattle.model.specs.Of.{Sized};
ghost use Rattle.model.specs.OfModel.{bytes_of};
ghost use Rattle.model.specs.WellFormed.{WellFormed, RefusedAt};

use crate::bytes::{MARK_AT, RAIN_AT, cell_start, height_in, mark_in, part_of, rain_in};
use crate::grid::Grid;
use crate::land::Model;
use crate::limits::{HEAD_BYTES, MAX_HEIGHT, MAX_RAIN};
use crate::refusal::Refusal;
use crate::units::Cell;

// A drain mark is 0 or 1.
const MAX_MARK: u32 = 1;

// The grid that the first four bytes give.
fn read_head(bytes: &[u8]) -> Result<Grid, Refusal>
    ensures fault { result_err result ≡ head_fault bytes.now }
    ensures grid { IfOk result (λ g. Sized g bytes.now) }
{
    let Some([a, b, c, d]) = bytes.first_chunk::<HEAD_BYTES>() else {
        return Err(Refusal::Length(bytes.len()));
    };
    let columns = u16::from_le_bytes([*a, *b]);
    let rows = u16::from_le_bytes([*c, *d]);
    Grid::new(u32::from(columns), u32::from(rows))
}

// The fault of a field that begins at `at` in a file of `length` bytes.
fn check_field(value: Option<u32>, most: u32, at: usize, length: usize) -> Result<(), Refusal>
    ensures { result_err result ≡ field_fault value most at length }
{
    match value {
        None => Err(Refusal::Length(length)),
        Some(value) if value > most => Err(Refusal::Value(at)),
        Some(_) => Ok(()),
    }
}

// The first fault of a cell.
fn check_cell(bytes: &[u8], cell: Cell) -> Result<(), Refusal>
    ensures { result_err result ≡ cell_fault bytes.now cell.0 }
{
    let part = part_of(bytes, cell);
    let at = cell_start(cell);
    check_field(height_in(part), MAX_HEIGHT, at, bytes.len())?;
    check_field(rain_in(part), MAX_RAIN, at + RAIN_AT, bytes.len())?;
    check_field(mark_in(part), MAX_MARK, at + MARK_AT, bytes.len())
}

// The model in the bytes of a file that is well formed, else its first fault. Nothing is changed.
pub fn read(bytes: &[u8]) -> Result<Model<'_>, Refusal>
    ensures fault { result_err result ≡ fault bytes.now }
    ensures model { IfOk result (λ m. bytes_of m ≡ bytes.now) }
    ensures grid { IfOk result (λ m. Sized m.grid bytes.now) }
    ensures meaning { MatchResult result (λ _. WellFormed bytes.now) (λ e. RefusedAt bytes.now e) }
{
    let grid = read_head(bytes)?;
    for c in 0..grid.cells() {
        check_cell(bytes, Cell(c))?;
    }
    let end = cell_start(Cell(grid.cells()));
    if bytes.len() > end {
        return Err(Refusal::Length(end));
    }
    Ok(Model::new(grid, bytes))
}

// The values of a model's cells, and where water leaves.
ghost use Rattle.std.specs.Prelude.{◌≡◌, ◌&&◌, None, if◌then◌else◌, nat_lt};
ghost use Rattle.std.specs.Option.{option_map};
ghost use Rattle.model.specs.Bytes.{count, height_at, rain_at};
ghost use Rattle.model.specs.Faults.{fault};
ghost use Rattle.model.specs.Terrain.{terrain, land};
ghost use Rattle.model.specs.Of.{Sized, number, if_cell, neighbour_in};
ghost use Rattle.model.specs.OfModel.{bytes_of};

use super::Model;
use crate::bytes::{height_in, mark_in, part_of, rain_in};
use crate::grid::Grid;
use crate::steps::Step;
use crate::units::{Amount, Cell, Height};

impl<'a> Model<'a> {
    // The model in bytes that were read without a fault.
    pub fn new(grid: Grid, bytes: &'a [u8]) -> Model<'a>
        requires sized { Sized grid bytes.now }
        requires taken { fault bytes.now ≡ None }
        ensures grid { result.grid ≡ grid }
        ensures bytes { bytes_of result ≡ bytes.now }
    {
        Model { grid, bytes }
    }

    pub fn grid(&self) -> Grid
        ensures { result ≡ self.now.grid }
    {
        self.grid
    }

    // The number of cells.
    pub fn cells(&self) -> u32
        ensures { result ≡ count (bytes_of self.now) }
    {
        self.grid.cells()
    }

    // The height of a cell, if there is such a cell.
    pub fn height(&self, cell: Cell) -> Option<Height>
        ensures { option_map (λ v. v.0) result ≡ if_cell (bytes_of self.now) cell (height_at (bytes_of self.now) cell.0) }
    {
        let height = height_in(part_of(self.bytes, cell))?;
        Some(Height(height))
    }

    // The rain on a cell, if there is such a cell.
    pub fn rain(&self, cell: Cell) -> Option<Amount>
        ensures { option_map (λ v. v.0) result ≡ if_cell (bytes_of self.now) cell (rain_at (bytes_of self.now) cell.0) }
    {
        let rain = rain_in(part_of(self.bytes, cell))?;
        Some(Amount(u64::from(rain)))
    }

    // The height of a cell, 0 where there is no such cell. It and rain_of are two methods, because heights and amounts are two types that
    // do not mix.
    pub fn height_of(&self, cell: Cell) -> Height
        ensures { result.0 ≡ (if nat_lt cell.0 (count (bytes_of self.now)) then height_at (bytes_of self.now) cell.0 else 0) }
    {
        self.height(cell).unwrap_or(Height(0))
    }

    // The rain on a cell, 0 where there is no such cell.
    pub fn rain_of(&self, cell: Cell) -> Amount
        ensures { result.0 ≡ (if nat_lt cell.0 (count (bytes_of self.now)) then rain_at (bytes_of self.now) cell.0 else 0) }
    {
        self.rain(cell).unwrap_or(Amount(0))
    }

    // The cell that a step leads to, if there is one.
    pub fn neighbour(&self, cell: Cell, step: Step) -> Option<Cell>
        ensures { option_map number result ≡ neighbour_in (bytes_of self.now) step cell }
    {
        self.grid.neighbour(cell, step)
    }

    // Whether a cell is marked as a drain; none is that does not exist.
    pub fn is_drain(&self, cell: Cell) -> bool
        ensures { result ≡ (nat_lt cell.0 (count (bytes_of self.now)) && (terrain (bytes_of self.now)).drain cell.0) }
    {
        mark_in(part_of(self.bytes, cell)) == Some(1)
    }

    // Whether water leaves the land at a cell: one of the border, or a drain.
    pub fn leaves(&self, cell: Cell) -> bool
        ensures { result ≡ (nat_lt cell.0 (count (bytes_of self.now)) && (land (bytes_of self.now)).leaves cell.0) }
    {
        self.grid.is_border(cell) || self.is_drain(cell)
    }
}

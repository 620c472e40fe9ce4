// What a grid says of its cells.
ghost use Rattle.std.specs.Prelude.{◌≡◌, ◌*◌, ◌<◌, ◌≤◌, cond, ◌&&◌, map, IfOk, nat_lt};
ghost use Rattle.std.specs.Option.{option_map};
ghost use Rattle.std.specs.Result.{result_err};
ghost use Rattle.model.specs.Faults.{size_fault};
ghost use Rattle.model.specs.Grid.{border, four_sides};
ghost use Rattle.model.specs.Of.{cells, number, position_of, cell_of, neighbour};

use super::{Grid, Position};
use crate::limits::MAX_SIDE;
use crate::refusal::{Refusal, Side};
use crate::steps::{SIDES, Step};
use crate::units::Cell;

impl Grid {
    // A grid, unless it has no columns or rows or too many.
    pub fn new(w: u32, h: u32) -> Result<Grid, Refusal>
        ensures fault { result_err result ≡ size_fault w h }
        ensures grid { IfOk result (λ g. (g.w ≡ w) × (g.h ≡ h)) }
    {
        if w == 0 || w > MAX_SIDE {
            return Err(Refusal::Size(Side::Columns));
        }
        if h == 0 || h > MAX_SIDE {
            return Err(Refusal::Size(Side::Rows));
        }
        Ok(Grid { w, h })
    }

    pub fn columns(self) -> u32
        ensures { result ≡ self.w }
    {
        self.w
    }

    pub fn rows(self) -> u32
        ensures { result ≡ self.h }
    {
        self.h
    }

    // The number of cells.
    pub fn cells(self) -> u32
        ensures { result ≡ cells self }
    {
        self.w * self.h
    }

    pub fn contains(self, cell: Cell) -> bool
        ensures { result ≡ nat_lt cell.0 (cells self) }
    {
        cell.0 < self.cells()
    }

    // Where a cell lies, if there is such a cell.
    pub fn position(self, cell: Cell) -> Option<Position>
        ensures { result ≡ position_of self cell }
    {
        if !self.contains(cell) {
            return None;
        }
        Some(Position {
            row: cell.0 / self.w,
            column: cell.0 % self.w,
        })
    }

    // The cell at a position, if there is one.
    pub fn cell(self, at: Position) -> Option<Cell>
        ensures { result ≡ cell_of self at }
    {
        if at.row >= self.h || at.column >= self.w {
            return None;
        }
        Some(Cell(at.row * self.w + at.column))
    }

    // The cell that a step leads to, if there is one.
    pub fn neighbour(self, cell: Cell, step: Step) -> Option<Cell>
        ensures { option_map number result ≡ neighbour self step cell }
    {
        let Position { row, column } = self.position(cell)?;
        let row = (row + u32::from(step.down)).checked_sub(u32::from(step.up))?;
        let column = (column + u32::from(step.right)).checked_sub(u32::from(step.left))?;
        self.cell(Position { row, column })
    }

    // The cells up, left, right and down, those of them that there are.
    pub fn neighbours(self, cell: Cell) -> [Option<Cell>; 4]
        ensures { map (option_map number) result ≡ map (λ s. neighbour self s cell) four_sides }
    {
        SIDES.map(|side| self.neighbour(cell, side))
    }

    // Whether a cell is one of the border.
    pub fn is_border(self, cell: Cell) -> bool
        ensures { result ≡ (nat_lt cell.0 (cells self) && border self.w self.h cell.0) }
    {
        let Some(Position { row, column }) = self.position(cell) else {
            return false;
        };
        row == 0 || row + 1 == self.h || column == 0 || column + 1 == self.w
    }
}

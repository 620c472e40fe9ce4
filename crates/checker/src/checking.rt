// Checking a table: the length, then where each cell sends, then each level, then each amount, up to the first fault.
ghost use Rattle.std.specs.Prelude.{◌≡◌, ◌<◌, false, None, MatchResult};
ghost use Rattle.std.specs.Result.{result_err};
ghost use Rattle.model.specs.Bytes.{count};
ghost use Rattle.model.specs.OfModel.{bytes_of};
ghost use Rattle.model.specs.Terrain.{land};
ghost use Rattle.amounts.specs.Amounts.{sends};
ghost use Rattle.amounts.specs.Row.{amount_at};
ghost use Rattle.checker.specs.Table.{flow_from};
ghost use Rattle.checker.specs.Accepted.{Right, Accepted};
ghost use Rattle.checker.specs.Conditions.{off_ok, filled};
ghost use Rattle.checker.specs.Faults.{sends_fault, level_fault, amount_fault, table_fault, check_fault};

use crate::table::Table;
use flood::sends::Sends;
use model::land::Model;
use model::reading::read;
use model::refusal::Refusal;
use model::steps::SIDES;
use model::units::{Amount, Cell, Height};

// Cells and their neighbours are visited by nested loops that are left by labels, a rule of the project.
impl Table<'_> {
    // Whether a cell sends off exactly where water may leave.
    fn is_off_right(&self, cell: Cell) -> bool
        requires { cell.0 < count (bytes_of self.now.model) }
        ensures { result ≡ off_ok (land (bytes_of self.now.model)) (flow_from self.now.bytes.now) cell.0 }
    {
        (self.row(cell).sends == Sends::Off) == self.model.leaves(cell)
    }

    // Each cell sends off exactly where water may leave, else to a neighbour that has an earlier place.
    fn check_sends(&self) -> Result<(), Refusal>
        ensures { result_err result ≡ sends_fault (bytes_of self.now.model) self.now.bytes.now }
    {
        'cells: for c in 0..self.model.cells() {
            let cell = Cell(c);
            if !self.is_off_right(cell) {
                return Err(Refusal::Sends(cell));
            }
            let row = self.row(cell);
            let Sends::To(to) = row.sends else {
                continue 'cells;
            };
            'sides: for side in SIDES {
                let Some(next) = self.model.neighbour(cell, side) else {
                    continue 'sides;
                };
                if next != to {
                    continue 'sides;
                }
                if self.row(next).place < row.place {
                    continue 'cells;
                }
                return Err(Refusal::Sends(cell));
            }
            return Err(Refusal::Sends(cell));
        }
        Ok(())
    }

    // How high water stands at a cell: at its height where it sends off, else no lower than where it sends to.
    fn fill_of(&self, cell: Cell) -> Height
        requires cell { cell.0 < count (bytes_of self.now.model) }
        requires to { (flow_from self.now.bytes.now).off cell.0 ≡ false → (flow_from self.now.bytes.now).to cell.0 < count (bytes_of self.now.model) }
        ensures { result.0 ≡ filled (land (bytes_of self.now.model)) (flow_from self.now.bytes.now) cell.0 }
    {
        let height = self.model.height_of(cell);
        match self.row(cell).sends {
            Sends::Off => height,
            Sends::To(to) => height.higher(self.row(to).level),
        }
    }

    // Each level is as high as water fills the cell, and above that of a neighbour only at the cell's height.
    fn check_levels(&self) -> Result<(), Refusal>
        requires { sends_fault (bytes_of self.now.model) self.now.bytes.now ≡ None }
        ensures { result_err result ≡ level_fault (bytes_of self.now.model) self.now.bytes.now }
    {
        'cells: for c in 0..self.model.cells() {
            let cell = Cell(c);
            let level = self.row(cell).level;
            if level != self.fill_of(cell) {
                return Err(Refusal::Level(cell));
            }
            if level == self.model.height_of(cell) {
                continue 'cells;
            }
            'sides: for side in SIDES {
                let Some(next) = self.model.neighbour(cell, side) else {
                    continue 'sides;
                };
                if self.row(next).level < level {
                    return Err(Refusal::Level(cell));
                }
            }
        }
        Ok(())
    }

    // What one cell sends to another.
    fn sent(&self, from: Cell, to: Cell) -> Amount
        requires { from.0 < count (bytes_of self.now.model) }
        ensures { result.0 ≡ sends (flow_from self.now.bytes.now) (amount_at self.now.bytes.now) to.0 from.0 }
    {
        let row = self.row(from);
        if row.sends == Sends::To(to) {
            row.amount
        } else {
            Amount(0)
        }
    }

    // Each amount is the cell's rain and what its neighbours send to it; other cells send nothing to it.
    fn check_amounts(&self) -> Result<(), Refusal>
        requires { sends_fault (bytes_of self.now.model) self.now.bytes.now ≡ None }
        ensures { result_err result ≡ amount_fault (bytes_of self.now.model) self.now.bytes.now }
    {
        'cells: for c in 0..self.model.cells() {
            let cell = Cell(c);
            let mut sum = u128::from(self.model.rain_of(cell).0);
            'sides: for side in SIDES {
                let Some(next) = self.model.neighbour(cell, side) else {
                    continue 'sides;
                };
                sum += u128::from(self.sent(next, cell).0);
            }
            if sum != u128::from(self.row(cell).amount.0) {
                return Err(Refusal::Amount(cell));
            }
        }
        Ok(())
    }
}

// Checks a table for a model that was read.
pub fn check_table(model: &Model<'_>, table: &[u8]) -> Result<(), Refusal>
    ensures { result_err result ≡ table_fault (bytes_of model.now) table.now }
{
    let table = Table::new(model, table)?;
    table.check_sends()?;
    table.check_levels()?;
    table.check_amounts()
}

// Checks a table for the model in the bytes of a file: the first fault of the bytes is refused, then that of the table.
pub fn check(bytes: &[u8], table: &[u8]) -> Result<(), Refusal>
    ensures refused { result_err result ≡ check_fault bytes.now table.now }
    ensures meaning { MatchResult result (λ _. Accepted bytes.now table.now) (λ _. (Right bytes.now table.now → ⊥)) }
{
    check_table(&read(bytes)?, table)
}

// The first fault of a table, by the rules of the format.
use crate::land::Ground;
use crate::rows::{ROW_BYTES, Row, read_rows};
use model::refusal::Refusal;
use model::units::Cell;
use std::alloc::{AllocError, Global};

// The rows of a table, beside the model.
#[derive(Clone, Copy)]
struct Table<'a> {
    ground: &'a Ground,
    rows: &'a [Row],
}

impl Table<'_> {
    // A cell sends off if and only if water may leave there; any other sends to a cell beside it that has an earlier place.
    fn is_sent_right(&self, cell: usize, row: Row) -> bool {
        let leaves = self.ground.leaves(cell);
        match row.sends {
            None => leaves,
            Some(to) => {
                !leaves
                    && self.ground.beside(cell).contains(&Some(to))
                    && self.rows.get(to).is_some_and(|next| next.place < row.place)
            }
        }
    }

    // Whether a cell beside a cell has a lower level.
    fn has_lower_side(&self, cell: usize, row: Row) -> bool {
        let mut beside = self.ground.beside(cell).into_iter().flatten();
        beside.any(|side| self.level(side) < row.level)
    }

    // A cell's level, 0 where there is no such cell.
    fn level(&self, cell: usize) -> u32 {
        self.rows.get(cell).map_or(0, |row| row.level)
    }

    // A level is the height, or as high as the level of the cell that is sent to; above a side's level only at the height.
    fn is_level_right(&self, cell: usize, row: Row) -> bool {
        let height = self.ground.spot(cell).height;
        let filled = row.sends.map_or(height, |to| height.max(self.level(to)));
        row.level == filled && (row.level == height || !self.has_lower_side(cell, row))
    }

    // An amount is the rain and the amounts of all cells that send to the cell.
    fn is_amount_right(&self, cell: usize, row: Row) -> bool {
        let rain = u64::from(self.ground.spot(cell).rain);
        let mut senders = self.rows.iter().filter(|from| from.sends == Some(cell));
        let sum = senders.try_fold(rain, |sum, from| sum.checked_add(from.amount));
        sum == Some(row.amount)
    }

    // The first cell for which the table is wrong by a rule.
    fn first_wrong<F: Fn(usize, Row) -> bool>(&self, is_right: F) -> Option<Cell>
        requires { F.IsAlwaysCallable is_right }
    {
        let wrong = self
            .rows
            .iter()
            .zip(0..)
            .find(|(row, cell)| !is_right(*cell as usize, **row));
        wrong.map(|(_, cell)| Cell(cell))
    }

    // The first fault of the rows.
    fn fault(&self) -> Option<Refusal> {
        let sends = self.first_wrong(|cell, row| self.is_sent_right(cell, row));
        let level = self.first_wrong(|cell, row| self.is_level_right(cell, row));
        let amount = self.first_wrong(|cell, row| self.is_amount_right(cell, row));
        sends
            .map(Refusal::Sends)
            .or(level.map(Refusal::Level))
            .or(amount.map(Refusal::Amount))
    }
}

// The first fault of a table of a model.
pub fn table_fault(
    heap: Global,
    ground: &Ground,
    table: &[u8],
) -> Result<Option<Refusal>, AllocError> {
    if table.len() != ground.spots.len().saturating_mul(ROW_BYTES) {
        return Ok(Some(Refusal::Table(table.len())));
    }
    let rows = read_rows(heap, table)?;
    let table = Table {
        ground,
        rows: &rows,
    };
    Ok(table.fault())
}

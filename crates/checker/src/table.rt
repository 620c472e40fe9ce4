// A table beside the model that it is for.
ghost use Rattle.std.specs.Prelude.{◌≡◌, ◌<◌, IfOk};
ghost use Rattle.std.specs.Result.{result_err};
ghost use Rattle.model.specs.Bytes.{count};
ghost use Rattle.model.specs.OfModel.{bytes_of};
ghost use Rattle.flood.specs.Sent.{sends_of};
ghost use Rattle.amounts.specs.Row.{level_at, sends_at, place_at, amount_at};
ghost use Rattle.checker.specs.Faults.{length_fault};
ghost use Rattle.checker.specs.Table.{Whole};

use amounts::rows::{ROW_BYTES, Row, read_row};
use model::land::Model;
use model::refusal::Refusal;
use model::units::Cell;

// A model, and the bytes of a table that has a row for each of its cells, and nothing else.
#[derive(Clone, Copy)]
pub(crate) struct Table<'a> {
    pub(crate) model: Model<'a>,
    pub(crate) bytes: &'a [u8],
    ghost whole: { Whole (bytes_of model) bytes.now },
}

impl<'a> Table<'a> {
    // A table that is longer or shorter than the model's is refused.
    pub(crate) fn new(model: &Model<'a>, bytes: &'a [u8]) -> Result<Table<'a>, Refusal>
        ensures refused { result_err result ≡ length_fault (bytes_of model.now) bytes.now }
        ensures model { IfOk result (λ t. t.model ≡ model.now) }
        ensures bytes { IfOk result (λ t. t.bytes.now ≡ bytes.now) }
    {
        if bytes.len() != ROW_BYTES * model.cells() as usize {
            return Err(Refusal::Table(bytes.len()));
        }
        Ok(Table {
            model: *model,
            bytes,
        })
    }

    // The row of a cell. That the model has the cell is asked of each caller: a type for its cells would have to hold the model, and be no
    // plainer.
    pub(crate) fn row(&self, cell: Cell) -> Row
        requires { cell.0 < count (bytes_of self.now.model) }
        ensures level { result.level.0 ≡ level_at self.now.bytes.now cell.0 }
        ensures sends { result.sends ≡ sends_of (sends_at self.now.bytes.now cell.0) }
        ensures place { result.place ≡ place_at self.now.bytes.now cell.0 }
        ensures amount { result.amount.0 ≡ amount_at self.now.bytes.now cell.0 }
    {
        read_row(self.bytes, cell).unwrap()
    }
}

// A change in the bytes of a model, before anything is drained again.
ghost use Rattle.std.specs.Prelude.{◌≡◌, Some, None, is_ok};
ghost use Rattle.model.specs.Faults.{fault};
ghost use Rattle.model.specs.Of.{Sized};
ghost use Rattle.changes.specs.Applied.{allowed, changed_by};

use crate::asked::Change;
use model::edits::{OutOfRange, write_drain, write_height, write_rain};
use model::grid::Grid;

// Makes a change in the bytes of a model. Nothing is written where its cell does not exist or its value is out of range.
#[tactic(auto, using(crate::proofs::Edits::cell_fits))]
pub(crate) fn write_change(grid: Grid, bytes: &mut [u8], change: Change) -> Result<(), OutOfRange>
    requires sized { Sized grid bytes.old }
    requires taken { fault bytes.old ≡ None }
    ensures done { is_ok result ≡ allowed bytes.old change }
    ensures bytes { bytes.new ≡ changed_by bytes.old (Some change) }
{
    match change {
        Change::Height(cell, height) => write_height(grid, bytes, cell, height),
        Change::Rain(cell, rain) => write_rain(grid, bytes, cell, rain),
        Change::Drain(cell, drain) => write_drain(grid, bytes, cell, drain),
    }
}

// The bytes of a table.
ghost use Rattle.std.specs.Prelude.{◌≡◌, ℕ, ◌*◌, ◌^◌, ◌<◌, length, drop, IfOk, slice_index};
ghost use Rattle.model.specs.Slices.{lists_of};
ghost use Rattle.amounts.specs.Joined.{joined, row_from};
ghost use Rattle.tables.specs.Memory.{JustLong};

use amounts::rows::{ROW_BYTES, Row};
use flood::sends::Sends;
use model::slices::Slices;
use model::units::{Amount, Height};
use std::alloc::{AllocError, Global};

// A row for each cell, from slices that have just what the cells need; places stand in the last third of the work.
pub(crate) fn table_rows(heap: Global, slices: &Slices<'_>) -> Result<Vec<u8>, AllocError>
    requires long { JustLong (length slices.now.levels.now) (lists_of slices.now) }
    requires places { (c : ℕ) → c < length slices.now.levels.now → slice_index (drop (2 * length slices.now.levels.now) slices.now.work.now) c < 2 ^ 32 }
    ensures { IfOk result (λ t. t.items ≡ joined (row_from slices.now.levels.now slices.now.flow.now (drop (2 * length slices.now.levels.now) slices.now.work.now) slices.now.amounts.now) (length slices.now.levels.now)) }
{
    let n = slices.levels.len();
    let places = &slices.work[2 * n..];
    let mut table = Vec::with_capacity(heap, n.saturating_mul(ROW_BYTES))?;
    let cells = slices
        .levels
        .iter()
        .zip(slices.flow.iter())
        .zip(places)
        .zip(slices.amounts.iter());
    for (((level, sends), place), amount) in cells {
        let row = Row {
            level: Height(*level),
            sends: Sends::from(*sends),
            place: *place as u32,
            amount: Amount(*amount),
        };
        table.extend_from_slice(&row.to_bytes())?;
    }
    Ok(table)
}

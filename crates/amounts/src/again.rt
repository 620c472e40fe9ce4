// Draining again: a model that was changed, into the slices that hold what it was before.
ghost use Rattle.std.specs.Prelude.{◌≡◌, ◌≤◌, length, MatchResult};
ghost use Rattle.std.specs.Result.{result_err};
ghost use Rattle.model.specs.Bytes.{count};
ghost use Rattle.model.specs.OfModel.{bytes_of};
ghost use Rattle.model.specs.Slices.{lists_of, SameSlices};
ghost use Rattle.amounts.specs.Again.{levels_changed, Again};
ghost use Rattle.amounts.specs.Draining.{room_fault, Unchanged};

use crate::answer::DrainedAgain;
use crate::draining::{check_room, pour};
use flood::flooding::flood;
use model::land::Model;
use model::refusal::Refusal;
use model::slices::Slices;

// Copies levels to where they stay while new ones are found.
fn keep_levels(levels: &[u32], before: &mut [u64])
    requires { length before.old ≡ length levels.now }
    ensures { before.new ≡ levels.now }
{
    // Not by a zip: of a slice that is lent to a zip, the check knows the length afterwards, and no entry.
    for (c, kept) in before.iter_mut().enumerate() {
        *kept = u64::from(levels[c]);
    }
}

// How many cells have another level than before.
fn count_changed(before: &[u64], levels: &[u32]) -> u32
    requires long { length before.now ≤ length levels.now }
    requires few { length before.now ≤ 160000 }
    ensures { result ≡ levels_changed before.now levels.now (length before.now) }
{
    before
        .iter()
        .zip(levels)
        .filter(|(old, new)| **old != u64::from(**new))
        .count() as u32
}

// Drains a model that was read, and counts the cells whose level is not the one that stood in the slice. The old levels are kept where
// the amounts will stand. A slice that is too short is refused, and nothing is written then.
pub fn drain_again(model: &Model<'_>, slices: &mut Slices<'_>) -> Result<DrainedAgain, Refusal>
    ensures refused { result_err result ≡ room_fault (count (bytes_of model.now)) (lists_of slices.old) }
    ensures after { MatchResult result (λ a. Again (bytes_of model.now) (lists_of slices.old) (lists_of slices.new) a) (λ _. Unchanged (lists_of slices.old) (lists_of slices.new)) }
    ensures same { SameSlices slices.old slices.new }
{
    check_room(model, slices)?;
    let n = model.cells() as usize;
    // Each slice by a name of its own: the check does not follow two fields that are lent at once.
    let levels = &mut *slices.levels;
    let flow = &mut *slices.flow;
    let amounts = &mut *slices.amounts;
    let work = &mut *slices.work;
    keep_levels(&levels[0..n], &mut amounts[0..n]);
    let looks = flood(model, levels, flow, work)?;
    let changed = count_changed(&amounts[0..n], levels);
    let drained = pour(model, looks, flow, amounts, work);
    Ok(DrainedAgain { drained, changed })
}

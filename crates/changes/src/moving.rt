// A change of rain: the amounts move on the way of the cell's water, and nowhere else.
ghost use Rattle.std.specs.Prelude.{◌≡◌, ℕ, ◌<◌, ◌≤◌, ◌++◌, length, drop, slice_index};
ghost use Rattle.model.specs.Bytes.{count};
ghost use Rattle.model.specs.Limits.{max_rain};
ghost use Rattle.model.specs.OfModel.{bytes_of};
ghost use Rattle.model.specs.Terrain.{land};
ghost use Rattle.flood.specs.Flooded.{table_of};
ghost use Rattle.amounts.specs.Passing.{table_amounts};
ghost use Rattle.amounts.specs.Promise.{flow_in};
ghost use Rattle.basins.specs.Exits.{way};
ghost use Rattle.changes.specs.Moved.{OffAt};

use flood::sends::Sends;
use model::land::Model;
use model::units::{Amount, Cell};

// From a cell down to its exit, each amount is less by the old rain and more by the new. Returns how many cells that are. A way is followed
// by a loop that ends where it sends off; no number counts its steps.
pub(crate) fn move_amounts(
    model: &Model<'_>,
    flow: &[u32],
    amounts: &mut [u64],
    cell: Cell,
    old: Amount,
    new: Amount,
) -> u32
    requires cell { cell.0 < count (bytes_of model.now) }
    requires flow { flow.now ≡ (table_of (bytes_of model.now)).flow ++ drop (count (bytes_of model.now)) flow.now }
    requires long { count (bytes_of model.now) ≤ length amounts.old }
    requires rain { (old.0 ≤ max_rain) × (new.0 ≤ max_rain) }
    requires low { (c : ℕ) → c < count (bytes_of model.now) → slice_index amounts.old c ≤ 160000000000 }
    requires off { OffAt (land (bytes_of model.now)) (flow_in (bytes_of model.now)) (λ c. slice_index amounts.old c) cell.0 old.0 new.0 }
    ensures amounts { amounts.new ≡ table_amounts (bytes_of model.now) ++ drop (count (bytes_of model.now)) amounts.old }
    ensures touched { result ≡ length (way (flow_in (bytes_of model.now)) cell.0) }
{
    let mut at = cell;
    let mut touched = 0;
    'way: loop {
        let c = at.index();
        amounts[c] = amounts[c] + new.0 - old.0;
        touched += 1;
        match Sends::from(flow[c]) {
            Sends::Off => return touched,
            Sends::To(next) => at = next,
        }
    }
}

// Draining: levels, flow, order and amounts of a model into lent slices.
ghost use Rattle.std.specs.Prelude.{◌≡◌, ◌*◌, ◌≤◌, ◌++◌, length, take, drop, MatchResult};
ghost use Rattle.std.specs.Result.{result_err};
ghost use Rattle.model.specs.Bytes.{count};
ghost use Rattle.model.specs.OfModel.{bytes_of};
ghost use Rattle.model.specs.Slices.{lists_of, SameSlices};
ghost use Rattle.model.specs.Terrain.{land};
ghost use Rattle.flood.specs.Flooded.{table_of};
ghost use Rattle.amounts.specs.Amounts.{all_rain, all_off};
ghost use Rattle.amounts.specs.Draining.{room_fault, drain_fault, Unchanged};
ghost use Rattle.amounts.specs.Passing.{table_amounts};
ghost use Rattle.amounts.specs.Promise.{flow_in, amount_in, Promise};

use crate::answer::Drained;
use crate::passing::{carry, leaving, rained};
use flood::flooding::flood;
use model::land::Model;
use model::reading::read;
use model::refusal::{Lent, Refusal};
use model::slices::{Slices, long_enough};

// The first of the four slices that is too short for the model.
pub(crate) fn check_room(model: &Model<'_>, slices: &Slices<'_>) -> Result<(), Refusal>
    ensures { result_err result ≡ room_fault (count (bytes_of model.now)) (lists_of slices.now) }
{
    let n = model.cells() as usize;
    long_enough(slices.levels, n, Refusal::Short(Lent::Levels))?;
    long_enough(slices.flow, n, Refusal::Short(Lent::Flow))?;
    long_enough(slices.amounts, n, Refusal::Short(Lent::Amounts))?;
    long_enough(slices.work, 3 * n, Refusal::Short(Lent::Work))
}

// The amounts of a model whose levels and flow were found with so many looks, and all that is answered of it.
pub(crate) fn pour(
    model: &Model<'_>,
    looks: u32,
    flow: &[u32],
    amounts: &mut [u64],
    work: &[u64],
) -> Drained
    requires room { (count (bytes_of model.now) ≤ length flow.now) × (count (bytes_of model.now) ≤ length amounts.old) × (3 * count (bytes_of model.now) ≤ length work.now) }
    requires flow { take (count (bytes_of model.now)) flow.now ≡ (table_of (bytes_of model.now)).flow }
    requires order { take (count (bytes_of model.now)) (drop (count (bytes_of model.now)) work.now) ≡ (table_of (bytes_of model.now)).order }
    ensures amounts { amounts.new ≡ table_amounts (bytes_of model.now) ++ drop (count (bytes_of model.now)) amounts.old }
    ensures looks { result.looks ≡ looks }
    ensures rain { result.rain.0 ≡ all_rain (land (bytes_of model.now)) (count (bytes_of model.now)) }
    ensures leaves { result.leaves.0 ≡ all_off (flow_in (bytes_of model.now)) (amount_in (bytes_of model.now)) (count (bytes_of model.now)) }
{
    let n = model.cells() as usize;
    carry(model, &flow[0..n], &work[n..2 * n], &mut amounts[0..n]);
    Drained {
        looks,
        rain: rained(model),
        leaves: leaving(&flow[0..n], &amounts[0..n]),
    }
}

// Drains a model that was read. A slice that is too short is refused, and nothing is written then.
pub fn drain_model(model: &Model<'_>, slices: &mut Slices<'_>) -> Result<Drained, Refusal>
    ensures refused { result_err result ≡ room_fault (count (bytes_of model.now)) (lists_of slices.old) }
    ensures after { MatchResult result (λ d. Promise (bytes_of model.now) (lists_of slices.old) (lists_of slices.new) d) (λ _. Unchanged (lists_of slices.old) (lists_of slices.new)) }
    ensures same { SameSlices slices.old slices.new }
{
    check_room(model, slices)?;
    let looks = flood(model, slices.levels, slices.flow, slices.work)?;
    // Each slice by a name of its own: the check does not follow two fields that are lent at once.
    let flow = &mut *slices.flow;
    let amounts = &mut *slices.amounts;
    let work = &mut *slices.work;
    Ok(pour(model, looks, flow, amounts, work))
}

// Drains the model in the bytes of a file. The first fault of the bytes is refused, then the first slice that is too short; nothing is
// written then.
pub fn drain(bytes: &[u8], slices: &mut Slices<'_>) -> Result<Drained, Refusal>
    ensures refused { result_err result ≡ drain_fault bytes.now (lists_of slices.old) }
    ensures after { MatchResult result (λ d. Promise bytes.now (lists_of slices.old) (lists_of slices.new) d) (λ _. Unchanged (lists_of slices.old) (lists_of slices.new)) }
    ensures same { SameSlices slices.old slices.new }
{
    drain_model(&read(bytes)?, slices)
}

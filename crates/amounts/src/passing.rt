// Amounts passed down the flow, in the order turned around.
ghost use Rattle.std.specs.Prelude.{◌≡◌, ℕ, ◌+◌, ◌*◌, ◌^◌, ◌<◌, ◌≤◌, false, ◌&&◌, ◌⊎◌, length, if◌then◌else◌, ◌==◌, nat_lt, slice_index};
ghost use Rattle.model.specs.Bytes.{count};
ghost use Rattle.model.specs.OfModel.{bytes_of};
ghost use Rattle.model.specs.Terrain.{land};
ghost use Rattle.flood.specs.Flooded.{table_of};
ghost use Rattle.flood.specs.Run.{none};
ghost use Rattle.amounts.specs.Accumulation.{passed_on, accumulated, rains};
ghost use Rattle.amounts.specs.Amounts.{all_rain};
ghost use Rattle.amounts.specs.Passing.{left_by, leaves_at, all_leaves, table_amounts};

use flood::sends::Sends;
use model::land::Model;
use model::units::{Amount, Cell};

// A cell adds its amount to that of the cell that it sends to.
fn pass_on(flow: &[u32], amounts: &mut [u64], cell: usize)
    requires cell { (cell < length flow.now) × (cell < length amounts.old) }
    requires sum { (slice_index flow.now cell == none) ≡ false → (slice_index flow.now cell < length amounts.old) × (slice_index amounts.old (slice_index flow.now cell) + slice_index amounts.old cell < 2 ^ 64) }
    ensures { amounts.new ≡ passed_on flow.now cell amounts.old }
{
    if let Sends::To(next) = Sends::from(flow[cell]) {
        amounts[next.index()] += amounts[cell];
    }
}

// What leaves the land of an amount that is sent there: all of it, or nothing.
fn left_by(sends: Sends, amount: Amount) -> Amount
    ensures { result.0 ≡ left_by sends amount.0 }
{
    match sends {
        Sends::Off => amount,
        Sends::To(_) => Amount(0),
    }
}

// What leaves the land at a cell: its amount if it sends off, else 0; 0 where there is no such cell.
pub fn leaves_at(flow: &[u32], amounts: &[u64], cell: Cell) -> Amount
    ensures { result.0 ≡ leaves_at flow.now amounts.now cell.0 }
{
    match (flow.get(cell.index()), amounts.get(cell.index())) {
        (Some(code), Some(amount)) => left_by(Sends::from(*code), Amount(*amount)),
        _ => Amount(0),
    }
}

// The rain of each cell into a slice that has one entry for each.
fn rain_all(model: &Model<'_>, amounts: &mut [u64])
    requires { length amounts.old ≡ count (bytes_of model.now) }
    ensures { amounts.new ≡ rains (land (bytes_of model.now)) }
{
    for (c, amount) in amounts.iter_mut().enumerate() {
        *amount = model.rain_of(Cell(c as u32)).0;
    }
}

// All the rain on a model.
pub(crate) fn rained(model: &Model<'_>) -> Amount
    ensures { result.0 ≡ all_rain (land (bytes_of model.now)) (count (bytes_of model.now)) }
{
    Amount((0..model.cells()).map(|c| model.rain_of(Cell(c)).0).sum())
}

// All that leaves the land.
pub(crate) fn leaving(flow: &[u32], amounts: &[u64]) -> Amount
    requires long { length amounts.now ≡ length flow.now }
    requires fits { all_leaves flow.now amounts.now (length flow.now) < 2 ^ 64 }
    ensures { result.0 ≡ all_leaves flow.now amounts.now (length flow.now) }
{
    let each = flow.iter().zip(amounts);
    Amount(
        each.map(|(code, amount)| left_by(Sends::from(*code), Amount(*amount)).0)
            .sum(),
    )
}

// The amounts of all cells: each has its rain, and from the last place to the first each passes its amount on.
pub(crate) fn carry(model: &Model<'_>, flow: &[u32], order: &[u64], amounts: &mut [u64])
    requires flow { flow.now ≡ (table_of (bytes_of model.now)).flow }
    requires order { order.now ≡ (table_of (bytes_of model.now)).order }
    requires long { length amounts.old ≡ count (bytes_of model.now) }
    ensures { amounts.new ≡ table_amounts (bytes_of model.now) }
{
    rain_all(model, amounts);
    for cell in order.iter().rev() {
        pass_on(flow, amounts, *cell as usize);
    }
}

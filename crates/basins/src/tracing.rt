// Exits traced along the flow: that of one cell by a walk, and those of all cells in one pass along the order.
ghost use Rattle.std.specs.Prelude.{◌≡◌, ◌≤◌, length, MatchResult};
ghost use Rattle.std.specs.Option.{option_map};
ghost use Rattle.std.specs.Result.{result_err};
ghost use Rattle.model.specs.Bytes.{count};
ghost use Rattle.model.specs.Of.{number};
ghost use Rattle.model.specs.OfModel.{bytes_of};
ghost use Rattle.basins.specs.Walks.{exit_of, exit_by, exits_after};
ghost use Rattle.basins.specs.Tracing.{exits_fault, Traced};

use crate::short::Short;
use flood::sends::Sends;
use model::land::Model;
use model::slices::long_enough;
use model::units::Cell;

// The exit of a cell, on any flow: none where the way comes round again, or to a code that is no cell.
pub fn exit_of(flow: &[u32], cell: Cell) -> Option<Cell>
    ensures { option_map number result ≡ exit_of flow.now (length flow.now) cell.0 }
{
    let mut at = cell;
    // As many steps as there are cells: the number of a step is no index.
    for _step in 0..flow.len() {
        match Sends::from(*flow.get(at.index())?) {
            Sends::Off => return Some(at),
            Sends::To(next) => at = next,
        }
    }
    None
}

// A cell's exit: itself where it sends off, else the exit that is known of the cell that it sends to. Behind the end of a slice stands 0.
fn exit_by(flow: &[u32], exits: &[u32], cell: u32) -> u32
    ensures { result ≡ exit_by flow.now exits.now cell }
{
    match Sends::from(flow.get(cell as usize).copied().unwrap_or(0)) {
        Sends::Off => cell,
        Sends::To(next) => exits.get(next.index()).copied().unwrap_or(0),
    }
}

// The exits of all cells, from the first place of the order to the last. A place that holds no cell is passed over.
fn tell_exits(flow: &[u32], order: &[u64], exits: &mut [u32])
    requires { length exits.old ≤ 160000 }
    ensures { exits.new ≡ exits_after flow.now order.now exits.old (length order.now) }
{
    for cell in order {
        let cell = *cell as usize;
        // By index, since `exit_by` reads the slice that is written.
        if cell < exits.len() {
            exits[cell] = exit_by(flow, exits, cell as u32);
        }
    }
}

// The exits of all cells of a model, from the flow and the work that draining left. A slice that is too short is refused, and
// nothing is written then.
pub fn find_exits(
    model: &Model<'_>,
    flow: &[u32],
    work: &[u64],
    exits: &mut [u32],
) -> Result<(), Short>
    ensures refused { result_err result ≡ exits_fault (count (bytes_of model.now)) flow.now work.now exits.old }
    ensures after { MatchResult result (λ _. Traced (bytes_of model.now) flow.now work.now exits.old exits.new) (λ _. exits.new ≡ exits.old) }
{
    let n = model.cells() as usize;
    long_enough(flow, n, Short::Flow)?;
    long_enough(work, 2 * n, Short::Work)?;
    long_enough(exits, n, Short::Exits)?;
    tell_exits(&flow[0..n], &work[n..2 * n], &mut exits[0..n]);
    Ok(())
}

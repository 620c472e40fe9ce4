// Basins: the cells of each are counted at its exit, where all its water leaves.
ghost use Rattle.std.specs.Prelude.{◌≡◌, ◌≤◌, length, MatchResult};
ghost use Rattle.std.specs.Result.{result_err};
ghost use Rattle.model.specs.Bytes.{count};
ghost use Rattle.model.specs.OfModel.{bytes_of};
ghost use Rattle.basins.specs.Parting.{cells_of, basin_at, basins_fault, BasinsFound};

use crate::short::Short;
use crate::tracing::find_exits;
use flood::sends::Sends;
use model::land::Model;
use model::slices::long_enough;
use model::units::{Amount, Cell};

// A basin: its exit, how many cells it has, and the amount that leaves it.
#[derive(Clone, Copy, PartialEq, Eq, Debug)]
pub struct Basin {
    pub outlet: Cell,
    pub cells: u32,
    pub amount: Amount,
}

// The number of cells that leave at each cell, into a slice that has one entry for each.
fn count_cells(exits: &[u32], cells: &mut [u32])
    requires long { length cells.old ≡ length exits.now }
    requires few { length exits.now ≤ 160000 }
    ensures { cells.new ≡ cells_of exits.now }
{
    cells.fill(0);
    for exit in exits {
        let exit = *exit as usize;
        // By index, since a proof knows no element of a slice after get_mut.
        if exit < cells.len() {
            cells[exit] += 1;
        }
    }
}

// The basin whose water leaves at a cell; none where the cell does not send off, or does not exist.
pub fn basin_at(flow: &[u32], amounts: &[u64], cells: &[u32], cell: Cell) -> Option<Basin>
    ensures { result ≡ basin_at flow.now amounts.now cells.now cell.0 }
{
    let at = cell.index();
    let (sends, amount, cells) = (*flow.get(at)?, *amounts.get(at)?, *cells.get(at)?);
    match Sends::from(sends) {
        Sends::Off => Some(Basin {
            outlet: cell,
            cells,
            amount: Amount(amount),
        }),
        Sends::To(_) => None,
    }
}

// The exit of each cell of a model and the number of cells of each basin, from the flow and the work that draining left. A slice
// that is too short is refused, and nothing is written then.
pub fn find_basins(
    model: &Model<'_>,
    flow: &[u32],
    work: &[u64],
    exits: &mut [u32],
    cells: &mut [u32],
) -> Result<(), Short>
    ensures refused { result_err result ≡ basins_fault (count (bytes_of model.now)) flow.now work.now exits.old cells.old }
    ensures after { MatchResult result (λ _. BasinsFound (bytes_of model.now) flow.now work.now exits.old cells.old exits.new cells.new) (λ _. (exits.new ≡ exits.old) × (cells.new ≡ cells.old)) }
{
    let n = model.cells() as usize;
    long_enough(cells, n, Short::Cells)?;
    find_exits(model, flow, work, exits)?;
    count_cells(&exits[0..n], &mut cells[0..n]);
    Ok(())
}

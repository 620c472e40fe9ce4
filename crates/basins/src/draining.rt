// Draining a model and finding its basins in one call.
ghost use Rattle.std.specs.Prelude.{◌≡◌, MatchResult};
ghost use Rattle.std.specs.Result.{result_err};
ghost use Rattle.model.specs.Bytes.{count};
ghost use Rattle.model.specs.OfModel.{bytes_of};
ghost use Rattle.model.specs.Slices.{lists_of, SameSlices};
ghost use Rattle.basins.specs.Draining.{drain_basins_fault, BasinsPromise, Untouched};

use crate::parting::find_basins;
use crate::short::{Refused, Short};
use amounts::answer::Drained;
use amounts::draining::drain_model;
use model::land::Model;
use model::slices::{Slices, long_enough};

// The slices for exits and cells are lent one by one: exits alone are found without cells, and the four are those of draining.
// Drains a model and finds its basins: the exit of each cell, and the number of cells of each basin at its exit. A slice that is
// too short is refused, and nothing is written then.
pub fn drain_basins(
    model: &Model<'_>,
    slices: &mut Slices<'_>,
    exits: &mut [u32],
    cells: &mut [u32],
) -> Result<Drained, Refused>
    ensures refused { result_err result ≡ drain_basins_fault (count (bytes_of model.now)) (lists_of slices.old) exits.old cells.old }
    ensures after { MatchResult result (λ d. BasinsPromise (bytes_of model.now) (lists_of slices.old) (lists_of slices.new) exits.old cells.old exits.new cells.new d) (λ _. Untouched (lists_of slices.old) (lists_of slices.new) exits.old cells.old exits.new cells.new) }
    ensures same { SameSlices slices.old slices.new }
{
    let n = model.cells() as usize;
    long_enough(exits, n, Short::Exits)?;
    long_enough(cells, n, Short::Cells)?;
    let drained = drain_model(model, slices)?;
    // Lent as &mut, since behind a field that is lent as & a proof knows no element.
    let flow = &mut *slices.flow;
    let work = &mut *slices.work;
    find_basins(model, flow, work, exits, cells)?;
    Ok(drained)
}

// The lines of a model's basins.
ghost use Rattle.std.specs.Prelude.{◌≡◌, Some, None, IfOk, string_bytes, MatchResult};
ghost use Rattle.model.specs.Bytes.{count};
ghost use Rattle.model.specs.Faults.{fault};
ghost use Rattle.model.specs.OfModel.{bytes_of};
ghost use Rattle.amounts.specs.Joined.{joined};
ghost use Rattle.basins.specs.Parting.{basin_at};
ghost use Rattle.tables.specs.Basins.{basin_text, basin_if, basins_text};
ghost use Rattle.tables.specs.Reports.{Fails};

use crate::memory::Memory;
use crate::printing::lines_of;
use basins::draining::drain_basins;
use basins::parting::{Basin, basin_at};
use changes::failure::Failure;
use model::land::Model;
use model::reading::read;
use model::slices::Slices;
use model::units::Cell;
use std::alloc::{AllocError, Global};
use std::fmt;

// A basin: its exit, how many cells it has, and what leaves it.
#[derive(Clone, Copy)]
struct BasinLine(Basin);

impl fmt::Display for BasinLine {
    ghost output = { λ l. Some (basin_text l.0.outlet.0 l.0.cells l.0.amount.0) };

    fn fmt<W: fmt::Write>(&self, f: &mut fmt::Formatter<W>) -> fmt::Result {
        let BasinLine(basin) = self;
        write!(
            f,
            "exit {} cells {} amount {}",
            basin.outlet.0, basin.cells, basin.amount.0
        )
    }
}

// The lines of the basins of a model.
fn basin_lines(
    heap: Global,
    model: &Model<'_>,
    flow: &[u32],
    amounts: &[u64],
    cells: &[u32],
) -> Result<String, AllocError>
    ensures { IfOk result (λ s. string_bytes s ≡ joined (λ e. basin_if (basin_at flow.now amounts.now cells.now e)) (count (bytes_of model.now))) }
{
    let basins = (0..model.cells()).filter_map(|c| basin_at(flow, amounts, cells, Cell(c)));
    lines_of(heap, basins.map(BasinLine))
}

// The lines of the basins of the model in the bytes of a file, or why there are none.
pub fn parted(heap: Global, bytes: &[u8]) -> Result<String, Failure>
    ensures { MatchResult result (λ s. (fault bytes.now ≡ None) × (string_bytes s ≡ basins_text bytes.now)) (λ f. Fails bytes.now f) }
{
    let model = read(bytes)?;
    let n = model.cells() as usize;
    let mut memory = Memory::new(heap, &model)?;
    let mut exits = vec![in heap; 0; n]?;
    let mut cells = vec![in heap; 0; n]?;
    let mut slices = memory.slices();
    // As one borrow, through which a proof knows what was written.
    let cells = cells.as_mut_slice();
    let Ok(_) = drain_basins(&model, &mut slices, &mut exits, cells) else {
        unreachable!();
    };
    let Slices { flow, amounts, .. } = slices;
    Ok(basin_lines(heap, &model, flow, amounts, cells)?)
}

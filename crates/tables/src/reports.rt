// What is told of a model: drained from its bytes, and put into lines and a table.
ghost use Rattle.std.specs.Prelude.{MatchResult};
ghost use Rattle.tables.specs.Reports.{Reported, Fails};

use crate::lines::drain_lines;
use crate::memory::Memory;
use crate::report::Report;
use crate::rows::table_rows;
use amounts::draining::drain_model;
use changes::failure::Failure;
use model::reading::read;
use model::slices::Slices;
use std::alloc::Global;

// The report of the model in the bytes of a file, or why there is none.
pub fn drained(heap: Global, bytes: &[u8]) -> Result<Report, Failure>
    ensures { MatchResult result (λ report. Reported bytes.now report) (λ f. Fails bytes.now f) }
{
    let model = read(bytes)?;
    let mut memory = Memory::new(heap, &model)?;
    let mut slices = memory.slices();
    let answer = drain_model(&model, &mut slices)?;
    let table = table_rows(heap, &slices)?;
    let Slices {
        levels,
        flow,
        amounts,
        ..
    } = slices;
    let text = drain_lines(heap, &model, levels, flow, amounts, answer)?;
    Ok(Report { text, table })
}

// What is told of a row of changes: applied to a model, and put into lines, the changed model's bytes and its table.
ghost use Rattle.std.specs.Prelude.{MatchResult};
ghost use Rattle.tables.specs.Changing.{RowReported};
ghost use Rattle.tables.specs.Reports.{Fails};

use crate::answers::{lines_of_answers, lines_of_hints};
use crate::memory::Memory;
use crate::report::RowReport;
use crate::rows::table_rows;
use changes::failure::Failure;
use changes::row::apply_row;
use changes::text::read_row;
use model::reading::read;
use std::alloc::Global;

// The report of the row of changes in a text, applied to the model in the bytes of a file, or why there is none. The bytes stay.
pub fn changed(heap: Global, bytes: &[u8], text: &[u8]) -> Result<RowReport, Failure>
    ensures { MatchResult result (λ report. RowReported bytes.now text.now report) (λ f. Fails bytes.now f) }
{
    let mut memory = Memory::new(heap, &read(bytes)?)?;
    let row = read_row(heap, text)?;
    let mut model = Vec::new(heap);
    model.extend_from_slice(bytes)?;
    let mut slices = memory.slices();
    let answers = apply_row(heap, &mut model, &mut slices, &row)?;
    Ok(RowReport {
        text: lines_of_answers(heap, &answers)?,
        hints: lines_of_hints(heap, &row)?,
        table: table_rows(heap, &slices)?,
        model,
    })
}

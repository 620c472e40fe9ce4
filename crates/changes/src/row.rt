// A row of changes applied to a model and to the slices that hold its table.
ghost use Rattle.std.specs.Prelude.{◌≡◌, ◌≤◌, [], map, length, vec_len, vec_capacity, MatchResult};
ghost use Rattle.std.specs.List.{range_with_len};
ghost use Rattle.model.specs.Slices.{lists_of, SameSlices};
ghost use Rattle.changes.specs.Applied.{bytes_after, answer_at};
ghost use Rattle.changes.specs.Current.{IsDrained, SameLent};
ghost use Rattle.changes.specs.Row.{Applied, Untouched, Fails};

use crate::answer::Answer;
use crate::applying::Current;
use crate::asked::Asked;
use crate::failure::Failure;
use amounts::draining::drain_model;
use model::reading::read;
use model::slices::Slices;
use std::alloc::Global;

// Applies a row to a model that the slices hold, and adds the answer to each change. No chain, whose closure would write into the model.
fn answer_all(
    current: &mut Current<'_>,
    slices: &mut Slices<'_>,
    row: &[Asked],
    answers: &mut Vec<Answer>,
)
    requires drained { IsDrained current.old (lists_of slices.old) (lists_of slices.old) }
    requires room { (answers.old.items ≡ []) × (vec_len answers.old ≡ 0) × (length row.now ≤ vec_capacity answers.old) }
    ensures after { IsDrained current.new (lists_of slices.old) (lists_of slices.new) }
    ensures bytes { current.new.bytes.now ≡ bytes_after current.old.bytes.now row.now (length row.now) }
    ensures answers { answers.new.items ≡ map (answer_at current.old.bytes.now row.now) (range_with_len 0 (length row.now)) }
    ensures lent { SameLent current.old current.new slices.old slices.new }
{
    for (k, asked) in row.iter().enumerate() {
        let answer = current.answer(slices, k, asked.change);
        answers.push_reserved(answer);
    }
}

// Applies a row of changes to the model in lent bytes: drains it, then makes change after change, and keeps in the lent slices what
// draining the changed model from the start would leave there. The first fault of the bytes is refused, then the first slice that is
// too short; nothing is written then, nor where memory is short. A refused change changes nothing, and the row goes on.
pub fn apply_row(
    heap: Global,
    bytes: &mut [u8],
    slices: &mut Slices<'_>,
    row: &[Asked],
) -> Result<Vec<Answer>, Failure>
    ensures after { MatchResult result (λ v. Applied bytes.old (lists_of slices.old) row.now bytes.new (lists_of slices.new) v.items) (λ f. Fails bytes.old (lists_of slices.old) f × Untouched bytes.old (lists_of slices.old) bytes.new (lists_of slices.new)) }
    ensures same { SameSlices slices.old slices.new }
{
    let mut answers = Vec::with_capacity(heap, row.len())?;
    let model = read(bytes)?;
    let grid = model.grid();
    let leaves = drain_model(&model, slices)?.leaves;
    let mut current = Current {
        grid,
        bytes,
        leaves,
    };
    answer_all(&mut current, slices, row, &mut answers);
    Ok(answers)
}

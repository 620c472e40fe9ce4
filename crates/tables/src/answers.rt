// The lines of a row of changes: an answer to each, and hints; specs/Changing.antt says which bytes they are.
ghost use Rattle.std.specs.Prelude.{◌≡◌, Some, IfOk, string_bytes};
ghost use Rattle.std.specs.List.{flat_map};
ghost use Rattle.tables.specs.Changing.{answer_text, answer_line, hint_text, hint, hint_at};

use crate::printing::lines_of;
use changes::answer::Answer;
use changes::asked::Asked;
use std::alloc::{AllocError, Global};
use std::fmt;

// The answer to a change.
#[derive(Clone, Copy)]
struct AnswerLine(Answer);

impl fmt::Display for AnswerLine {
    ghost output = { λ l. Some (answer_text l.0) };

    fn fmt<W: fmt::Write>(&self, f: &mut fmt::Formatter<W>) -> fmt::Result {
        match self.0 {
            Ok(changed) => write!(f, "leaves {} changed {}", changed.leaves.0, changed.levels),
            Err(refusal) => write!(f, "{refusal}"),
        }
    }
}

// A hint at a line that is no change, by its number.
#[derive(Clone, Copy)]
struct Hint {
    line: usize,
}

impl fmt::Display for Hint {
    ghost output = { λ h. Some (hint_text h.line) };

    fn fmt<W: fmt::Write>(&self, f: &mut fmt::Formatter<W>) -> fmt::Result {
        write!(f, "change: line {} is no change", self.line)
    }
}

// A line for each answer.
pub(crate) fn lines_of_answers(heap: Global, answers: &[Answer]) -> Result<String, AllocError>
    ensures { IfOk result (λ s. string_bytes s ≡ flat_map answer_line answers.now) }
{
    lines_of(heap, answers.iter().copied().map(AnswerLine))
}

// The hint at what is asked for, if it is no change.
fn hint_at(asked: &Asked) -> Option<Hint>
    ensures { result ≡ hint_at asked.now }
{
    let line = asked.line;
    asked.change.is_none().then_some(Hint { line })
}

// The hints at all lines of a row that are no change.
pub(crate) fn lines_of_hints(heap: Global, row: &[Asked]) -> Result<String, AllocError>
    ensures { IfOk result (λ s. string_bytes s ≡ flat_map hint row.now) }
{
    lines_of(heap, row.iter().filter_map(hint_at))
}

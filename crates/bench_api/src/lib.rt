// The proved drain and a row of changes as C calls them, for the benchmark: slices in, plain numbers out.
#![tactic(auto)]

ghost use Rattle.std.specs.Prelude.{◌≡◌, MatchOption};
ghost use Rattle.amounts.specs.Draining.{drain_fault, Unchanged};
ghost use Rattle.amounts.specs.Promise.{Promise};
ghost use Rattle.changes.specs.Text.{row_of};
ghost use Rattle.bench_api.specs.Answers.{contents_of, number_of, place_of, drained_of, NothingTold};
ghost use Rattle.bench_api.specs.Rows.{RowTold};

use amounts::answer::Drained;
use amounts::draining::drain;
use changes::failure::Failure;
use changes::row::apply_row;
use changes::text::read_row;
use model::refusal::Refusal;
use model::slices::Slices;
use std::alloc::Global;

// The refusal's number, or 0 where the model was drained; then the looks. The refusal's place, else 0; what rained and what leaves.
// Plain numbers in place of a Result and an enum: the C interface needs it.
#[repr(C)]
#[derive(Clone, Copy)]
pub struct Answer {
    pub refused: u32,
    pub looks: u32,
    pub place: usize,
    pub rain: u64,
    pub leaves: u64,
}

impl From<Drained> for Answer {
    ghost use Rattle.bench_api.specs.Answers.{drained};

    ghost from_gives = { λ d a. a ≡ drained d };

    fn from(drained: Drained) -> Answer {
        Answer {
            refused: 0,
            looks: drained.looks,
            place: 0,
            rain: drained.rain.0,
            leaves: drained.leaves.0,
        }
    }
}

impl From<Refusal> for Answer {
    ghost use Rattle.bench_api.specs.Answers.{refused};

    ghost from_gives = { λ e a. a ≡ refused e };

    fn from(refusal: Refusal) -> Answer {
        Answer {
            refused: refusal.number(),
            looks: 0,
            place: refusal.place(),
            rain: 0,
            leaves: 0,
        }
    }
}

// Drains the model in the bytes of a file into the lent slices. On a refusal nothing is written. Four slices in place of one value:
// the C interface needs it.
#[unsafe(no_mangle)]
pub extern "C" fn zaefmoln_drain(
    bytes: &[u8],
    levels: &mut [u32],
    flow: &mut [u32],
    amounts: &mut [u64],
    work: &mut [u64],
) -> Answer
    ensures refused { result.refused ≡ number_of (drain_fault bytes.now (contents_of levels.old flow.old amounts.old work.old)) }
    ensures place { result.place ≡ place_of (drain_fault bytes.now (contents_of levels.old flow.old amounts.old work.old)) }
    ensures after { MatchOption (drain_fault bytes.now (contents_of levels.old flow.old amounts.old work.old)) (Promise bytes.now (contents_of levels.old flow.old amounts.old work.old) (contents_of levels.new flow.new amounts.new work.new) (drained_of result)) (λ _. Unchanged (contents_of levels.old flow.old amounts.old work.old) (contents_of levels.new flow.new amounts.new work.new) × NothingTold result) }
{
    let mut slices = Slices {
        levels,
        flow,
        amounts,
        work,
    };
    match drain(bytes, &mut slices) {
        Ok(drained) => Answer::from(drained),
        Err(refusal) => Answer::from(refusal),
    }
}

// The number that stands for want of memory, which is no refusal's. A number in place of an enum: the C interface needs it.
const MEMORY: u32 = 10;

// 0 where a row was applied, else the refusal's number or that for want of memory; how many changes were answered; the refusal's place.
// Plain numbers in place of a Result and an enum: the C interface needs it.
#[repr(C)]
#[derive(Clone, Copy)]
pub struct RowAnswer {
    pub failed: u32,
    pub answers: usize,
    pub place: usize,
}

impl From<Failure> for RowAnswer {
    ghost use Rattle.bench_api.specs.Rows.{failed_row};

    ghost from_gives = { λ f a. a ≡ failed_row f };

    fn from(failure: Failure) -> RowAnswer {
        match failure {
            Failure::Refused(why) => RowAnswer {
                failed: why.number(),
                answers: 0,
                place: why.place(),
            },
            Failure::Memory => RowAnswer {
                failed: MEMORY,
                answers: 0,
                place: 0,
            },
        }
    }
}

// Drains the model in the bytes of a file into the lent slices, and applies the row of changes in a text to both. Where it fails
// nothing is written. Four slices in place of one value: the C interface needs it.
#[unsafe(no_mangle)]
pub extern "C" fn zaefmoln_change(
    heap: Global,
    bytes: &mut [u8],
    levels: &mut [u32],
    flow: &mut [u32],
    amounts: &mut [u64],
    work: &mut [u64],
    text: &[u8],
) -> RowAnswer
    ensures { RowTold bytes.old (contents_of levels.old flow.old amounts.old work.old) (row_of text.now) bytes.new (contents_of levels.new flow.new amounts.new work.new) result }
{
    let Ok(row) = read_row(heap, text) else {
        return RowAnswer::from(Failure::Memory);
    };
    let mut lent = Slices {
        levels,
        flow,
        amounts,
        work,
    };
    match apply_row(heap, bytes, &mut lent, &row) {
        Ok(answers) => RowAnswer {
            failed: 0,
            answers: answers.len(),
            place: 0,
        },
        Err(failure) => RowAnswer::from(failure),
    }
}

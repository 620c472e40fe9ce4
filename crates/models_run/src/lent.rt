// The slices that draining is lent, and what it leaves in them.
use crate::numbers::Dice;
use crate::rows::{Row, cell_of};
use amounts::answer::Drained;
use amounts::draining::drain;
use changes::answer::Answer;
use changes::asked::Asked;
use changes::failure::Failure;
use changes::row::apply_row;
use model::refusal::{Lent, Refusal};
use model::slices::Slices;
use std::alloc::{AllocError, Global};

// What lies in the slices before.
const OLD: u32 = 77;

// The lists that are lent as the four slices. Not those of `tables`, which are all zeros and never cut: here something lies in them
// before, and some are cut too short.
#[derive(Drop)]
pub struct Lists {
    levels: Vec<u32>,
    flow: Vec<u32>,
    amounts: Vec<u64>,
    work: Vec<u64>,
}

// Takes the last entry from a list once in so many times; the slice that is too short then.
fn cut_once_in<T: Drop>(
    times: u32,
    dice: &mut Dice,
    list: &mut Vec<T>,
    lent: Lent,
) -> Option<Lent> {
    (dice.below(times) == 0 && list.pop().is_some()).then_some(lent)
}

impl Lists {
    // Lists for a number of cells.
    pub fn new(heap: Global, cells: usize) -> Result<Lists, AllocError> {
        Ok(Lists {
            levels: vec![in heap; OLD; cells]?,
            flow: vec![in heap; OLD; cells]?,
            amounts: vec![in heap; u64::from(OLD); cells]?,
            work: vec![in heap; u64::from(OLD); cells.saturating_mul(3)]?,
        })
    }

    // The lists, lent as slices.
    fn lend(&mut self) -> Slices<'_> {
        Slices {
            levels: &mut self.levels,
            flow: &mut self.flow,
            amounts: &mut self.amounts,
            work: &mut self.work,
        }
    }

    // Drains a model into the slices.
    pub fn drain(&mut self, bytes: &[u8]) -> Result<Drained, Refusal> {
        drain(bytes, &mut self.lend())
    }

    // Applies a row of changes to a model, and leaves the changed model's table in the slices.
    pub fn change(
        &mut self,
        heap: Global,
        bytes: &mut [u8],
        row: &[Asked],
    ) -> Result<Vec<Answer>, Failure> {
        apply_row(heap, bytes, &mut self.lend(), row)
    }

    // Takes the last entry from some of the lists; the first slice that is too short then.
    pub fn cut_some(&mut self, dice: &mut Dice) -> Option<Lent> {
        let work = cut_once_in(2, dice, &mut self.work, Lent::Work);
        let amounts = cut_once_in(3, dice, &mut self.amounts, Lent::Amounts);
        let flow = cut_once_in(4, dice, &mut self.flow, Lent::Flow);
        let levels = cut_once_in(5, dice, &mut self.levels, Lent::Levels);
        levels.or(flow).or(amounts).or(work)
    }

    // What draining left of each cell. The places stand in the last third of the work.
    pub fn rows(&self, heap: Global) -> Result<Vec<Row>, AllocError> {
        let places = self.work.iter().skip(self.levels.len().saturating_mul(2));
        let levels = self.levels.iter().zip(self.flow.iter());
        let rows = levels.zip(places).zip(self.amounts.iter());
        rows.map(|(((level, flow), place), amount)| Row {
            level: *level,
            sends: cell_of(*flow),
            place: *place,
            amount: *amount,
        })
        .collect(heap)
    }
}

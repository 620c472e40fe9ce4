// The memory that is lent to be drained into.
ghost use Rattle.std.specs.Prelude.{◌≡◌, IfOk};
ghost use Rattle.model.specs.Bytes.{count};
ghost use Rattle.model.specs.OfModel.{bytes_of};
ghost use Rattle.model.specs.Slices.{lists_of};
ghost use Rattle.tables.specs.Memory.{held, zeros};

use model::land::Model;
use model::slices::Slices;
use std::alloc::{AllocError, Global};

// What is lent to drain a model: an entry for each cell in levels, flow and amounts, three in the work. Lists side by side, as they are lent.
#[derive(Drop)]
pub(crate) struct Memory {
    levels: Vec<u32>,
    flow: Vec<u32>,
    amounts: Vec<u64>,
    work: Vec<u64>,
}

impl Memory {
    // As much as a model needs, all zeros.
    pub(crate) fn new(heap: Global, model: &Model<'_>) -> Result<Memory, AllocError>
        ensures { IfOk result (λ m. held m ≡ zeros (count (bytes_of model.now))) }
    {
        let n = model.cells() as usize;
        Ok(Memory {
            levels: vec![in heap; 0; n]?,
            flow: vec![in heap; 0; n]?,
            amounts: vec![in heap; 0; n]?,
            work: vec![in heap; 0; 3 * n]?,
        })
    }

    // All of it, to lend.
    pub(crate) fn slices(&mut self) -> Slices<'_>
        ensures { lists_of result ≡ held self.entry.now }
    {
        Slices {
            levels: &mut self.levels,
            flow: &mut self.flow,
            amounts: &mut self.amounts,
            work: &mut self.work,
        }
    }
}

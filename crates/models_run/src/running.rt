// Which models are compared, and how often.
use crate::changing::compare_row;
use crate::comparing::{compare_damaged, compare_ways, compare_whole};
use crate::land::Ground;
use crate::making::some_ground;
use crate::numbers::Dice;
use crate::tally::Tallies;
use std::alloc::{AllocError, Global};
use std::ops::Range;

const SEED: u64 = 20_261_118;

// The memory and the dice of a run, and what it has compared. A model goes beside it, another one each time.
#[derive(Drop)]
pub struct Run {
    pub heap: Global,
    pub dice: Dice,
    pub tallies: Tallies,
}

impl Run {
    // Compares so many models of each size.
    fn compare_each<F: Fn(&mut Run, &Ground) -> Result<(), AllocError>>(
        &mut self,
        columns: Range<u16>,
        rows: Range<u16>,
        models: u32,
        compare: F,
    ) -> Result<(), AllocError>
        requires { F.IsAlwaysCallable compare }
    {
        for columns in columns {
            for rows in rows.start..rows.end {
                for _ in 0..models {
                    let ground = some_ground(self.heap, &mut self.dice, columns, rows)?;
                    compare(self, &ground)?;
                }
            }
        }
        Ok(())
    }
}

// All comparisons. All ways off the land are searched in small models only.
pub fn run_all(heap: Global) -> Result<Tallies, AllocError> {
    let mut run = Run {
        heap,
        dice: Dice(SEED),
        tallies: Tallies::new(heap),
    };
    run.compare_each(1..6, 1..5, 300, compare_ways)?;
    run.compare_each(3..13, 3..13, 20, compare_whole)?;
    run.compare_each(1..7, 1..7, 30, compare_damaged)?;
    run.compare_each(1..7, 1..7, 30, compare_row)?;
    Ok(run.tallies)
}

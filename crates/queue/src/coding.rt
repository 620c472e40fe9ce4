// An entry as one word of the lent slice: to compare two takes one step.
ghost use Rattle.queue.specs.Calls.{Coded};

use crate::Entry;
use model::units::{Cell, Height};

// One more than the greatest number in half a word.
const HALF: u64 = 0x1_0000_0000;

// The level in the high half, the cell's number in the low half.
impl From<Entry> for u64 {
    ghost from_gives = { λ entry word. Coded entry word };

    fn from(entry: Entry) -> u64 {
        u64::from(entry.level.0) * HALF + u64::from(entry.cell.0)
    }
}

impl From<u64> for Entry {
    ghost from_gives = { λ word entry. Coded entry word };

    fn from(word: u64) -> Entry {
        Entry {
            level: Height((word / HALF) as u32),
            cell: Cell((word % HALF) as u32),
        }
    }
}

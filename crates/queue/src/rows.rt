// What is promised of rows of pushes and pops, of whatever length, and of the order in which entries come out.
ghost use Rattle.std.specs.Prelude.{◌≡◌, ◌^◌, ◌<◌};
ghost use Rattle.std.specs.Ordering.{nat_cmp};
ghost use Rattle.queue.specs.Calls.{WordsInOrder, word_of};
ghost use Rattle.queue.specs.Rows.{Sorts, LosesNothing, KeepsOrder, RefusesNone};
ghost use Rattle.queue.specs.declared.Entry.{Entry};

use crate::Entry;

// Entries that are pushed and then popped come out in order.
pub fn sorts()
    ensures { Sorts }
{}

// No row of pushes and pops loses an entry or invents one.
pub fn loses_nothing()
    ensures kept { LosesNothing }
    ensures order { KeepsOrder }
    ensures all { RefusesNone }
{}

// To compare words is to compare entries, by level and then by number.
pub fn words_in_order()
    ensures numbers { WordsInOrder }
    ensures entries { (a b : Entry) → a.cell.0 < 2 ^ 32 → b.cell.0 < 2 ^ 32 →
        ⟦<Entry as Ord>⟧.cmp a b ≡ nat_cmp (word_of a) (word_of b) }
{}

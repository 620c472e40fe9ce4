// A binary heap of levels and cells in the front of a lent slice, one word an entry: the lowest comes out first.
#![tactic(auto)]

ghost use Rattle.std.specs.Prelude.{◌≡◌, ℕ, ◌+◌, ◌-◌, ◌^◌, ◌<◌, ◌≤◌, length, IfSome, MatchOption};
ghost use Rattle.queue.specs.Heap.{Heap, Gains, Rest};
ghost use Rattle.queue.specs.Limits.{most_entries, most_looks};
ghost use Rattle.queue.specs.Calls.{word_of, Lowest, Pushes, Pops};

use model::units::{Cell, Height};

mod coding;
mod down;
pub mod rows;
#[cfg(test)]
mod tests;
mod up;

// A cell with the level that it stands in the queue with. Lower levels come first, of equal levels lower numbers.
#[derive(Clone, Copy, PartialEq, Eq, PartialOrd, Ord, Debug)]
pub struct Entry {
    pub level: Height,
    pub cell: Cell,
}

// An entry that was given out, and the looks that it took.
#[derive(Clone, Copy, PartialEq, Eq, Debug)]
pub struct Popped {
    pub entry: Entry,
    pub looks: u32,
}

// A heap in a part of a lent slice: the entries stand in the first `len` words.
// std's `BinaryHeap` would allocate, and counts no looks. That `len` fits is no invariant: a queue with any length was answered before, and
// is. Each call says that the words stay the same slice, which no invariant can.
#[derive(Drop)]
pub struct Queue<'a> {
    pub words: &'a mut [u64],
    pub len: usize,
}

impl<'a> Queue<'a> {
    // The queue of what stands in the first `len` words. Where there are fewer words, it takes and gives nothing.
    pub fn new(words: &'a mut [u64], len: usize) -> Queue<'a>
        ensures same_reference { result.words.ghost_name ≡ words.entry.ghost_name }
        ensures words { result.words.now ≡ words.old }
        ensures len { result.len ≡ len }
    {
        Queue { words, len }
    }

    // How many entries are in.
    pub fn len(&self) -> usize
        ensures { result ≡ self.now.len }
    {
        self.len
    }

    // Adds an entry. Returns the number of looks, or nothing where the slice is full.
    pub fn push(&mut self, entry: Entry) -> Option<u32>
        ensures same_reference { self.new.words.ghost_name ≡ self.old.words.ghost_name }
        ensures after { Pushes self.old.words.now self.old.len entry self.new.words.now result }
        ensures len { MatchOption result (self.new.len ≡ self.old.len) (λ _. self.new.len ≡ self.old.len + 1) }
        ensures order { Heap self.old.words.now self.old.len → Heap self.new.words.now self.new.len }
        ensures content { self.old.len < length self.old.words.now →
            Gains self.old.words.now self.old.len (word_of entry) self.new.words.now self.new.len }
        ensures rest { Rest self.old.words.now (self.old.len + 1) self.new.words.now }
        ensures few { IfSome result (λ looks. (k : ℕ) → self.old.len < 2 ^ k → looks ≤ k) }
        ensures limit { self.old.len ≤ most_entries → IfSome result (λ looks. looks ≤ most_looks) }
    {
        if self.len >= self.words.len() {
            return None;
        }
        let looks = self.sift_up(u64::from(entry));
        self.len += 1;
        Some(looks)
    }

    // Takes the lowest entry out. Returns nothing where there is none.
    pub fn pop(&mut self) -> Option<Popped>
        ensures same_reference { self.new.words.ghost_name ≡ self.old.words.ghost_name }
        ensures after { Pops self.old.words.now self.old.len self.new.words.now result }
        ensures len { MatchOption result (self.new.len ≡ self.old.len) (λ _. self.new.len ≡ self.old.len - 1) }
        ensures lowest { Heap self.old.words.now self.old.len →
            IfSome result (λ p. Lowest p.entry self.old.words.now self.old.len) }
        ensures order { Heap self.old.words.now self.old.len → Heap self.new.words.now self.new.len }
        ensures content { IfSome result (λ p.
            Gains self.new.words.now self.new.len (word_of p.entry) self.old.words.now self.old.len) }
        ensures rest { Rest self.old.words.now (self.old.len - 1) self.new.words.now }
        ensures few { IfSome result (λ p. (k : ℕ) → self.old.len ≤ 2 ^ k → p.looks ≤ k) }
        ensures limit { self.old.len ≤ most_entries → IfSome result (λ p. p.looks ≤ most_looks) }
    {
        if self.len == 0 || self.len > self.words.len() {
            return None;
        }
        self.len -= 1;
        let first = self.words[0];
        let last = self.words[self.len];
        let looks = self.sift_down(last);
        Some(Popped {
            entry: Entry::from(first),
            looks,
        })
    }
}

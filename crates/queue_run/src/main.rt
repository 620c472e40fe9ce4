// queue_run: sends many entries, with many ties, through the queue, and compares what comes out with a sorted list of them.
#![tactic(auto)]

use model::units::{Cell, Height};
use queue::{Entry, Queue};
use std::alloc::{AllocError, Global};
use std::iter::successors;

const ENTRIES: usize = 100_000;

const LEVELS: u32 = 50;

const CELLS: u32 = 160_000;

const MOST_LOOKS: u32 = 17;

// The next number of a fixed sequence that looks random.
fn next_number(number: u32) -> u32 {
    number.wrapping_mul(1_664_525).wrapping_add(1_013_904_223)
}

// The entry that is made of a number of the sequence and the one after it.
fn made_entry(number: u32) -> Entry {
    Entry {
        level: Height((number >> 16) % LEVELS),
        cell: Cell((next_number(number) >> 8) % CELLS),
    }
}

fn made_entries(heap: Global) -> Result<Vec<Entry>, AllocError> {
    successors(Some(next_number(1)), |number| {
        Some(next_number(next_number(*number)))
    })
    .take(ENTRIES)
    .map(made_entry)
    .collect(heap)
}

// Level and number of an entry as one number, to sort by: the library's own order is not what its queue is compared with.
fn sort_key(entry: Entry) -> u64 {
    u64::from(entry.level.0) * 1_000_000 + u64::from(entry.cell.0)
}

fn sorted(heap: Global, entries: &[Entry]) -> Result<Vec<Entry>, AllocError> {
    let mut sorted = entries.to_vec(heap)?;
    sorted.sort_by_key(|entry| sort_key(*entry))?;
    Ok(sorted)
}

// Whether the entries come out of the queue in the order of a sort, with few looks at each call.
fn comes_sorted(words: &mut [u64], entries: &[Entry], sorted: &[Entry]) -> bool {
    let mut queue = Queue::new(words, 0);
    entries.iter().all(|entry| { queue.push(*entry).is_some_and(|looks| looks <= MOST_LOOKS) })
        && sorted.iter().all(|entry| {
            queue.pop().is_some_and(|popped| popped.entry == *entry && popped.looks <= MOST_LOOKS)
        })
}

fn main(rt: HostRuntime) -> std::io::Result<()> {
    let entries = made_entries(rt.alloc())?;
    let sorted = sorted(rt.alloc(), &entries)?;
    let mut words = vec![in rt.alloc(); 0u64; ENTRIES]?;
    let as_sorted = comes_sorted(&mut words, &entries, &sorted);
    println!(rt; "entries {ENTRIES} as sorted {as_sorted}")
}

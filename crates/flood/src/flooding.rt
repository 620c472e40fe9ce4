// The flood: levels, flow and order of a model, found together, lowest cell first.
ghost use Rattle.std.specs.Prelude.{◌≡◌, ℕ, ◌+◌, ◌-◌, ◌*◌, ◌^◌, ◌<◌, ◌≤◌, ◌++◌, length, replicate, MatchOption, MatchResult, slice_index};
ghost use Rattle.std.specs.Result.{result_err};
ghost use Rattle.model.specs.Bytes.{count};
ghost use Rattle.model.specs.OfModel.{bytes_of};
ghost use Rattle.queue.specs.Heap.{cell_of};
ghost use Rattle.flood.specs.Run.{none, blank, put, after, table};
ghost use Rattle.flood.specs.Sent.{sends_code};
ghost use Rattle.flood.specs.Held.{Sized, Holds};
ghost use Rattle.flood.specs.Of.{ground};
ghost use Rattle.flood.specs.Flooded.{too_short, Flooded};
ghost use Rattle.flood.specs.Steps.{SameSlices, Leads, Empty, Taken};

use crate::sends::{NONE, Sends};
use model::land::Model;
use model::refusal::{Lent, Refusal};
use model::slices::long_enough;
use model::units::Cell;
use queue::{Entry, Queue};

// How far a flood has come: what is known of each cell, how many cells have places, and the looks made so far.
// Lists side by side and a count beside them, since the caller lends the memory as slices of plain numbers. The queue goes beside a run and
// not into it: of a struct that holds a &mut in another no proof is made. Each step says that the slices stay the same, which no invariant can.
#[derive(Drop)]
struct Run<'a> {
    levels: &'a mut [u32],
    flow: &'a mut [u32],
    // The cell at each place, and the place of each cell.
    order: &'a mut [u64],
    places: &'a mut [u64],
    placed: usize,
    looks: u32,
}

impl<'a> Run<'a> {
    // A cell gets its level, sends its water on, and is put into the queue.
    fn put(&mut self, queue: &mut Queue<'_>, entry: Entry, sends: Sends)
        requires cell { (entry.cell.0 < length self.old.levels.now) × (entry.cell.0 < length self.old.flow.now) }
        requires room { queue.old.len < length queue.old.words.now }
        requires few { (queue.old.len ≤ 800000) × (self.old.looks < 2 ^ 31) }
        ensures same { SameSlices self.old self.new queue.old queue.new }
        ensures put { Leads (put entry.level.0 (sends_code sends) entry.cell.0) self.old self.new queue.old queue.new }
    {
        self.levels[entry.cell.index()] = entry.level.0;
        self.flow[entry.cell.index()] = u32::from(sends);
        if let Some(looks) = queue.push(entry) {
            self.looks += looks;
        }
    }

    // The lowest entry is taken out of the queue, and its cell gets the next place; none where the queue is empty.
    fn take(&mut self, queue: &mut Queue<'_>) -> Option<Entry>
        requires cell { 0 < queue.old.len → cell_of (slice_index queue.old.words.now 0) < length self.old.places.now }
        requires room { 0 < queue.old.len → self.old.placed < length self.old.order.now }
        requires few { (queue.old.len ≤ 800000) × (queue.old.len ≤ length queue.old.words.now) × (self.old.looks < 2 ^ 31) }
        ensures same { SameSlices self.old self.new queue.old queue.new }
        ensures taken { MatchOption result (Empty self.old self.new queue.old queue.new) (Taken self.old self.new queue.old queue.new) }
    {
        let popped = queue.pop()?;
        let cell = popped.entry.cell;
        self.order[self.placed] = u64::from(cell.0);
        self.places[cell.index()] = self.placed as u64;
        self.placed += 1;
        self.looks += popped.looks;
        Some(popped.entry)
    }

    // All outlets stand in the queue with their heights, and send off the land.
    fn begin(&mut self, queue: &mut Queue<'_>, model: &Model<'_>)
        requires { Holds (blank (count (bytes_of model.now))) self.old queue.old }
        ensures same { SameSlices self.old self.new queue.old queue.new }
        ensures begun { Holds (after (ground model.now) 0) self.new queue.new }
    {
        'outlets: for c in 0..model.cells() {
            let cell = Cell(c);
            if !model.leaves(cell) {
                continue 'outlets;
            }
            let level = model.height_of(cell);
            self.put(queue, Entry { level, cell }, Sends::Off);
        }
    }

    // Turn after turn a cell gets its place, and its neighbours with no level are put in, until the queue is empty.
    fn finish(&mut self, queue: &mut Queue<'_>, model: &Model<'_>)
        requires { Holds (after (ground model.now) 0) self.old queue.old }
        ensures same { SameSlices self.old self.new queue.old queue.new }
        ensures table { Holds (table (ground model.now)) self.new queue.new }
    {
        'cells: while let Some(taken) = self.take(queue) {
            'sides: for side in model.grid().neighbours(taken.cell) {
                let Some(next) = side else {
                    continue 'sides;
                };
                if self.levels[next.index()] != NONE {
                    continue 'sides;
                }
                let level = model.height_of(next).higher(taken.level);
                self.put(queue, Entry { level, cell: next }, Sends::To(taken.cell));
            }
        }
    }
}

// Slices in which nothing is known yet.
fn clear(levels: &mut [u32], flow: &mut [u32], work: &mut [u64])
    ensures levels { levels.new ≡ replicate (length levels.old) none }
    ensures flow { flow.new ≡ replicate (length flow.old) none }
    ensures work { work.new ≡ replicate (length work.old) none }
{
    levels.fill(NONE);
    flow.fill(NONE);
    work.fill(u64::from(NONE));
}

// The flood into slices of just the lengths that the model needs. Returns the looks.
fn flood_all(model: &Model<'_>, levels: &mut [u32], flow: &mut [u32], work: &mut [u64]) -> u32
    requires { Sized (count (bytes_of model.now)) levels.old flow.old work.old }
    ensures levels { levels.new ≡ (table (ground model.now)).levels }
    ensures flow { flow.new ≡ (table (ground model.now)).flow }
    ensures work { let last = table (ground model.now) in work.new ≡ last.queue ++ (last.order ++ last.places) }
    ensures looks { result ≡ (table (ground model.now)).looks }
{
    let n = levels.len();
    clear(levels, flow, work);
    let (words, rest) = work.split_at_mut(n);
    let (order, places) = rest.split_at_mut(n);
    let mut queue = Queue::new(words, 0);
    let mut run = Run {
        levels,
        flow,
        order,
        places,
        placed: 0,
        looks: 0,
    };
    run.begin(&mut queue, model);
    run.finish(&mut queue, model);
    run.looks
}

// Levels, flow, order and places of a model, and the number of looks in the queue. Three of the four lent slices, one by one: a flood
// needs no amounts and asks for none. Slices may be longer than needed; where one is
// too short, it is refused and nothing is written.
pub fn flood(
    model: &Model<'_>,
    levels: &mut [u32],
    flow: &mut [u32],
    work: &mut [u64],
) -> Result<u32, Refusal>
    ensures refused { result_err result ≡ too_short (count (bytes_of model.now)) levels.old flow.old work.old }
    ensures after { MatchResult result (λ looks. Flooded (bytes_of model.now) levels.old flow.old work.old levels.new flow.new work.new looks) (λ _. (levels.new ≡ levels.old) × (flow.new ≡ flow.old) × (work.new ≡ work.old)) }
{
    let n = model.cells() as usize;
    long_enough(levels, n, Refusal::Short(Lent::Levels))?;
    long_enough(flow, n, Refusal::Short(Lent::Flow))?;
    long_enough(work, 3 * n, Refusal::Short(Lent::Work))?;
    Ok(flood_all(model, &mut levels[..n], &mut flow[..n], &mut work[..3 * n]))
}

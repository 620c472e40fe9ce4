// Rows of changes beside models that are changed and drained anew.
use crate::faults::{reported, told};
use crate::land::{Ground, MOST};
use crate::lent::Lists;
use crate::numbers::Dice;
use crate::rows::Row;
use crate::rule::worked_out;
use crate::running::Run;
use crate::tally::Comparison;
use changes::answer::{Answer, Changed};
use changes::asked::{Asked, Change};
use model::refusal::Refusal;
use model::units::{Amount, Cell, Height};
use std::alloc::{AllocError, Global};

// What of a cell is to change.
#[derive(Clone, Copy)]
enum Field {
    Height,
    Rain,
    Drain,
}

// A change that is asked for; the cell may not exist, and the value may be out of range. Not the library's `Change`, which cannot name a mark
// of 2; and a field is no step to run but a part of the change, so a match on it is what closures would only hide.
#[derive(Clone, Copy)]
struct Wish {
    field: Field,
    cell: u32,
    value: u32,
}

// A change of one of some cells, or of one cell more.
fn some_wish(dice: &mut Dice, cells: u32) -> Wish {
    let field = match dice.below(5) {
        0 => Field::Drain,
        1 | 2 => Field::Rain,
        _ => Field::Height,
    };
    let value = match dice.below(8) {
        0 => dice.below(2).saturating_add(MOST),
        1 | 2 => dice.below(MOST),
        _ => dice.below(6),
    };
    Wish {
        field,
        cell: dice.below(cells.saturating_add(1)),
        value,
    }
}

impl Wish {
    // The change as the library is asked for it. Only 0 and 1 are drain marks. TryFrom is no plainer: a row asks for an Option.
    fn change(self) -> Option<Change> {
        let cell = Cell(self.cell);
        match self.field {
            Field::Height => Some(Change::Height(cell, Height(self.value))),
            Field::Rain => Some(Change::Rain(cell, Amount(u64::from(self.value)))),
            Field::Drain if self.value < 2 => Some(Change::Drain(cell, self.value == 1)),
            Field::Drain => None,
        }
    }

    // Makes the change, unless the cell does not exist or the value is out of range. The number is the change's in its row.
    fn make(self, ground: &mut Ground, number: usize) -> Result<(), Refusal> {
        let refused = Refusal::Change(number);
        let spot = ground.spots.get_mut(self.cell as usize).ok_or(refused)?;
        match self.field {
            Field::Height if self.value <= MOST => spot.height = self.value,
            Field::Rain if self.value <= MOST => spot.rain = self.value,
            Field::Drain if self.value < 2 => spot.drain = self.value == 1,
            _ => return Err(refused),
        }
        Ok(())
    }
}

// A row of changes.
fn some_wishes(heap: Global, dice: &mut Dice, cells: u32) -> Result<Vec<Wish>, AllocError> {
    (0..12).map(|_| some_wish(dice, cells)).collect(heap)
}

// The row as the library is asked for it.
fn row_of(heap: Global, wishes: &[Wish]) -> Result<Vec<Asked>, AllocError> {
    let lines = wishes.iter().enumerate();
    lines
        .map(|(line, wish)| Asked {
            line,
            change: wish.change(),
        })
        .collect(heap)
}

// How many cells have another level.
fn count_changed(before: &[Row], after: &[Row]) -> u32 {
    let rows = before.iter().zip(after);
    let changed = rows.filter(|(before, after)| before.level != after.level);
    u32::try_from(changed.count()).unwrap_or(u32::MAX)
}

// Makes a change, and answers it by what leaves then and by the number of changed levels.
fn answer_to(
    heap: Global,
    ground: &mut Ground,
    number: usize,
    wish: Wish,
) -> Result<Answer, AllocError> {
    let before = worked_out(heap, ground)?;
    let made = wish.make(ground, number);
    let after = worked_out(heap, ground)?;
    Ok(made.map(|_| Changed {
        leaves: Amount(ground.all_rain()),
        levels: count_changed(&before, &after),
    }))
}

// Makes the changes one by one, and gives the answer to each.
fn answers_to(
    heap: Global,
    ground: &mut Ground,
    wishes: &[Wish],
) -> Result<Vec<Answer>, AllocError> {
    let numbered = wishes.iter().enumerate();
    numbered
        .map(|(number, wish)| answer_to(heap, ground, number, *wish))
        .try_collect(heap)
}

// A row of changes of a model: the answers, a refusal by what is reported of it, and the file and the slices after it beside those of the changed model.
pub fn compare_row(run: &mut Run, ground: &Ground) -> Result<(), AllocError> {
    let heap = run.heap;
    let wishes = some_wishes(heap, &mut run.dice, ground.cells())?;
    let mut bytes = ground.file(heap)?;
    let mut lists = Lists::new(heap, ground.spots.len())?;
    let Ok(found) = lists.change(heap, &mut bytes, &row_of(heap, &wishes)?) else {
        return run.tallies.note(Comparison::Rows, false);
    };
    let mut changed = ground.clone()?;
    let expected = answers_to(heap, &mut changed, &wishes)?;
    let tallies = &mut run.tallies;
    tallies.note(Comparison::Rows, found.len() == wishes.len())?;
    let found: Vec<_> = found
        .iter()
        .map(|answer| answer.map_err(told))
        .collect(heap)?;
    let expected: Vec<_> = expected
        .iter()
        .map(|answer| answer.map_err(reported))
        .collect(heap)?;
    tallies.note_all(Comparison::Rows, &found, &expected)?;
    tallies.note(Comparison::Rows, bytes == changed.file(heap)?)?;
    let expected = worked_out(heap, &changed)?;
    tallies.note_all(Comparison::Rows, &lists.rows(heap)?, &expected)
}

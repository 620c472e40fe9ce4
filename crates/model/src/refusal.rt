// Why something is refused, and where: one enum for the whole project.
ghost use Rattle.std.specs.Prelude.{◌≡◌, Some};
ghost use Rattle.model.specs.Refusals.{number, place, refused_text};

use crate::units::Cell;
use std::error::Error;
use std::fmt;

// One of the two numbers at the head of a model file, by the byte at which it begins.
#[derive(Clone, Copy, PartialEq, Eq, Debug)]
pub enum Side {
    Columns = 0,
    Rows = 2,
}

// A slice that the caller lends, in the order of `Slices`.
#[derive(Clone, Copy, PartialEq, Eq, Debug)]
pub enum Lent {
    Levels,
    Flow,
    Amounts,
    Work,
}

#[derive(Clone, Copy, PartialEq, Eq, Debug)]
pub enum Refusal {
    // A file's bytes end too early, or go on: its length, or the first byte too many.
    Length(usize),
    // A model without columns or rows, or with too many.
    Size(Side),
    // A height, a rain or a drain mark out of range: its first byte.
    Value(usize),
    // A lent slice that is too short.
    Short(Lent),
    // A change of a cell that does not exist, or to a value out of range: the change's number.
    Change(usize),
    // A table of another length than the model's: its length.
    Table(usize),
    // In a table: a cell's level.
    Level(Cell),
    // In a table: where a cell sends its water, or its place in the order.
    Sends(Cell),
    // In a table: a cell's amount.
    Amount(Cell),
}

// Programs print the number and the place, and C gets them.
impl Refusal {
    // The number by which a refusal is reported.
    pub fn number(self) -> u32
        ensures { result ≡ number self }
    {
        match self {
            Refusal::Length(_) => 1,
            Refusal::Size(_) => 2,
            Refusal::Value(_) => 3,
            Refusal::Short(_) => 4,
            Refusal::Change(_) => 5,
            Refusal::Table(_) => 6,
            Refusal::Level(_) => 7,
            Refusal::Sends(_) => 8,
            Refusal::Amount(_) => 9,
        }
    }

    // The place that is reported with the number: a byte, a slice, a change or a cell.
    pub fn place(self) -> usize
        ensures { result ≡ place self }
    {
        match self {
            Refusal::Length(at) | Refusal::Value(at) => at,
            Refusal::Size(side) => side as usize,
            Refusal::Short(lent) => lent as usize,
            Refusal::Change(change) => change,
            Refusal::Table(length) => length,
            Refusal::Level(cell) | Refusal::Sends(cell) | Refusal::Amount(cell) => cell.index(),
        }
    }
}

impl fmt::Display for Refusal {
    ghost output = { λ r. Some (refused_text r) };

    fn fmt<W: fmt::Write>(&self, f: &mut fmt::Formatter<W>) -> fmt::Result {
        let number = self.number();
        let place = self.place();
        write!(f, "refused {number} at {place}")
    }
}

impl Error for Refusal {}

// What a row of changes asks for.
use model::units::{Amount, Cell, Height};

// A change of one cell: another height, another rain, or a drain mark that is set or taken away.
#[derive(Clone, Copy, PartialEq, Eq, Debug)]
pub enum Change {
    Height(Cell, Height),
    Rain(Cell, Amount),
    Drain(Cell, bool),
}

// A line that counts: its number in the text, from 1, and the change that it asks for, if it is one.
#[derive(Clone, Copy, PartialEq, Eq, Debug)]
pub struct Asked {
    pub line: usize,
    pub change: Option<Change>,
}

// One line of a row of changes.
ghost use Rattle.std.specs.Prelude.{◌≡◌};
ghost use Rattle.changes.specs.Text.{words, chomped, passed_over, number_of, change_read, change_of};

use super::number::read_number;
use crate::asked::Change;
use model::units::{Amount, Cell, Height};

// A line without the carriage return at its end.
pub fn chomp(line: &[u8]) -> &[u8]
    ensures { result.now ≡ chomped line.now }
{
    match line {
        [front @ .., b'\r'] => front,
        _ => line,
    }
}

// Whether a line does not count: a blank one, or a remark.
pub fn is_passed_over(line: &[u8]) -> bool
    ensures { result ≡ passed_over line.now }
{
    matches!(line, [] | [b'#', ..])
}

// The change that a name and two words ask for, if there is such a one.
fn change_named(name: &[u8], cell: &[u8], value: &[u8]) -> Option<Change>
    ensures { result ≡ change_read name.now (number_of cell.now) (number_of value.now) }
{
    let at = Cell(read_number(cell)?);
    let number = read_number(value)?;
    match name {
        b"height" => Some(Change::Height(at, Height(number))),
        b"rain" => Some(Change::Rain(at, Amount(u64::from(number)))),
        b"drain" if number <= 1 => Some(Change::Drain(at, number == 1)),
        _ => None,
    }
}

// The change that the words of a line ask for, if they are a change.
pub fn change_in(line: &[u8]) -> Option<Change>
    ensures { result ≡ change_of (words line.now) }
{
    let mut words = line.split(|byte| *byte == b' ');
    match (words.next(), words.next(), words.next(), words.next()) {
        (Some(name), Some(cell), Some(value), None) => change_named(name, cell, value),
        _ => None,
    }
}

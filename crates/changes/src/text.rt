// The text of a row of changes, one to a line.
ghost use Rattle.std.specs.Prelude.{◌≡◌, ◌++◌, IfOk, OnOk};
ghost use Rattle.changes.specs.Text.{asked_by, row_of};

mod line;
mod number;

use self::line::{change_in, chomp, is_passed_over};
use crate::asked::Asked;
use std::alloc::{AllocError, Global};

// Adds what a line asks for, if it counts.
fn push_line(row: &mut Vec<Asked>, number: usize, line: &[u8]) -> Result<(), AllocError>
    ensures { OnOk result (row.new.items ≡ row.old.items ++ asked_by number line.now) }
{
    let line = chomp(line);
    if !is_passed_over(line) {
        let change = change_in(line);
        row.push(Asked {
            line: number,
            change,
        })?;
    }
    Ok(())
}

// What a text asks for, line after line.
pub fn read_row(heap: Global, text: &[u8]) -> Result<Vec<Asked>, AllocError>
    ensures { IfOk result (λ v. v.items ≡ row_of text.now) }
{
    let mut row = Vec::new(heap);
    'lines: for (i, line) in text.split(|byte| *byte == b'\n').enumerate() {
        push_line(&mut row, i + 1, line)?;
    }
    Ok(row)
}

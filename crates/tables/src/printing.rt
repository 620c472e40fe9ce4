// Lines of text: each is what a value displays, and a newline.
ghost use Rattle.std.specs.Prelude.{[], IfOk, string_bytes, OnOk};
ghost use Rattle.std.specs.Fmt.{AppendsText, with_newline};
ghost use Rattle.std.specs.Iterator.{IsFinite};
ghost use Rattle.tables.specs.Printing.{PrintsEach};

use std::alloc::{AllocError, Global};
use std::fmt::Display;

// A line more.
pub(crate) fn push_line<T: Display>(out: &mut String, value: &T) -> Result<(), AllocError>
    ensures { OnOk result (AppendsText (string_bytes out.old) (string_bytes out.new) (with_newline (T.output value.now))) }
{
    writeln!(out, "{value}")
}

// A line more for each value.
pub(crate) fn push_lines<T: Display + Drop, I: Iterator<Item = T> + Drop>(
    out: &mut String,
    values: I,
) -> Result<(), AllocError>
    requires can { I.can_next values }
    requires ends { IsFinite (I.remaining values) }
    ensures { OnOk result (PrintsEach I.next_gives T.output values (string_bytes out.old) (string_bytes out.new)) }
{
    for value in values {
        push_line(out, &value)?;
    }
    Ok(())
}

// A line for each value.
pub(crate) fn lines_of<T: Display + Drop, I: Iterator<Item = T> + Drop>(
    heap: Global,
    values: I,
) -> Result<String, AllocError>
    requires can { I.can_next values }
    requires ends { IsFinite (I.remaining values) }
    ensures { IfOk result (λ s. PrintsEach I.next_gives T.output values [] (string_bytes s)) }
{
    let mut out = String::new(heap);
    push_lines(&mut out, values)?;
    Ok(out)
}

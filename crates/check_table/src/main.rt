// check: accepts a table for a model if it is right, whoever made it, or says where it is not.
#![tactic(auto)]

use checker::checking;
use cli::{Failed, Program};
use std::process::ExitCode;

const USAGE: &str =
    "usage: check MODEL TABLE\n\nChecks the table in the file TABLE for the model in the file MODEL. Prints accepted, or the number and\nthe place of the first fault: 1 to 3 in the model, 6 the table's length, 8 where a cell sends, 7 a level,\n9 an amount.\n";

// Checks the table in one file for the model in another, and prints what it found.
fn check_files(program: &Program<'_>, model: &str, table: &str) -> Result<(), Failed> {
    let bytes = program.read_file(model)?;
    let rows = program.read_file(table)?;
    checking::check(&bytes, &rows).map_err(|refusal| program.fail(refusal.into()))?;
    program.print("accepted\n")
}

fn run(program: &Program<'_>) -> Result<(), Failed> {
    let words = program.arguments()?;
    match words.as_slice() {
        [model, table] => check_files(program, model, table),
        _ => program.print(USAGE),
    }
}

// Each program has its own, which says its name: a function around this would be no plainer.
fn main(rt: HostRuntime) -> ExitCode {
    let program = Program {
        rt: &rt,
        name: "check",
    };
    cli::status_of(run(&program))
}

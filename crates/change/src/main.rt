// change: applies a row of changes to a model, prints what comes of each, and writes the changed model and its table.
#![tactic(auto)]

use cli::{Failed, Program};
use std::process::ExitCode;
use tables::changing::changed;
use tables::report::RowReport;

const USAGE: &str =
    "usage: change MODEL CHANGES [MODEL_OUT [TABLE_OUT]]\n\nApplies the row of changes in the file CHANGES to the model in the file MODEL: one change to a line,\nheight CELL VALUE, rain CELL VALUE, drain CELL 0 or drain CELL 1. Prints after each change what leaves\nthe model and how many levels it changed, or its refusal; a refused change changes nothing, and the row\ngoes on. Writes the changed model into the file MODEL_OUT and its table into the file TABLE_OUT, if they\nare named. MODEL stays as it is, unless it is named again.\n";

// Writes the changed model and its table into the files that are named, none, one or both.
fn save(program: &Program<'_>, outs: &[String], report: &RowReport) -> Result<(), Failed> {
    let contents = [&report.model, &report.table];
    for (path, bytes) in outs.iter().zip(contents) {
        program.save_file(path, bytes)?;
    }
    Ok(())
}

// Applies the row of changes in one file to the model in another, saves what is asked for, and prints its lines.
fn change_files(
    program: &Program<'_>,
    model: &str,
    row: &str,
    outs: &[String],
) -> Result<(), Failed> {
    let bytes = program.read_file(model)?;
    let text = program.read_file(row)?;
    let heap = program.rt.alloc();
    let report = changed(heap, &bytes, &text).map_err(|failure| program.fail(failure))?;
    save(program, outs, &report)?;
    program.hint(&report.hints);
    program.print(&report.text)
}

fn run(program: &Program<'_>) -> Result<(), Failed> {
    let words = program.arguments()?;
    match words.as_slice() {
        [model, row, outs @ ..] if outs.len() <= 2 => change_files(program, model, row, outs),
        _ => program.print(USAGE),
    }
}

// Each program has its own, which says its name: a function around this would be no plainer.
fn main(rt: HostRuntime) -> ExitCode {
    let program = Program {
        rt: &rt,
        name: "change",
    };
    cli::status_of(run(&program))
}

// drain: drains a model, writes its table and prints its lines or its basins, or why it is refused.
#![tactic(auto)]

use cli::{Failed, Program};
use std::process::ExitCode;
use tables::parting::parted;
use tables::reports::drained;

const USAGE: &str =
    "usage: drain MODEL [TABLE]\n       drain --basins MODEL\n\nDrains the model in the file MODEL. Prints how many cells it has, what rained on it and what leaves it,\nthen a line for each cell whose level is above its height, and for each cell at which more leaves than\nrained on it. Writes level, flow, place and amount of every cell into the file TABLE, if one is named.\nWith --basins it prints each exit, the number of the cells whose water leaves there, and its amount.\n";

// Drains the model in a file, saves its table if asked to, and prints its lines.
fn drain_file(program: &Program<'_>, model: &str, table: Option<&str>) -> Result<(), Failed> {
    let bytes = program.read_file(model)?;
    let heap = program.rt.alloc();
    let report = drained(heap, &bytes).map_err(|failure| program.fail(failure))?;
    if let Some(path) = table {
        program.save_file(path, &report.table)?;
    }
    program.print(&report.text)
}

// Prints the basins of the model in a file.
fn list_basins(program: &Program<'_>, model: &str) -> Result<(), Failed> {
    let bytes = program.read_file(model)?;
    let heap = program.rt.alloc();
    let text = parted(heap, &bytes).map_err(|failure| program.fail(failure))?;
    program.print(&text)
}

fn run(program: &Program<'_>) -> Result<(), Failed> {
    let words = program.arguments()?;
    match words.as_slice() {
        [model] if model.as_str() != "--help" => drain_file(program, model, None),
        [flag, model] if flag.as_str() == "--basins" => list_basins(program, model),
        [model, table] => drain_file(program, model, Some(table.as_str())),
        _ => program.print(USAGE),
    }
}

// Each program has its own, which says its name: a function around this would be no plainer.
fn main(rt: HostRuntime) -> ExitCode {
    let program = Program {
        rt: &rt,
        name: "drain",
    };
    cli::status_of(run(&program))
}

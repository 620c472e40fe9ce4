// What draining and checking give, beside what was worked out plainly.
use crate::damage::damaged;
use crate::faults::check_model;
use crate::floods::flooded_levels;
use crate::land::Ground;
use crate::lent::Lists;
use crate::rows::{Row, table_of};
use crate::rule::worked_out;
use crate::running::Run;
use crate::tables::table_fault;
use crate::tally::Comparison;
use crate::ways::lowest_ways;
use checker::checking::check;
use model::refusal::Refusal;
use std::alloc::{AllocError, Global};

// The rows of a model that was drained, none where it was refused.
fn drained_rows(heap: Global, ground: &Ground) -> Result<Vec<Row>, AllocError> {
    let bytes = ground.file(heap)?;
    let mut lists = Lists::new(heap, ground.spots.len())?;
    match lists.drain(&bytes) {
        Ok(_) => lists.rows(heap),
        Err(_) => Ok(Vec::new(heap)),
    }
}

// The levels of a model that was drained.
fn drained_levels(heap: Global, ground: &Ground) -> Result<Vec<Option<u32>>, AllocError> {
    let rows = drained_rows(heap, ground)?;
    rows.iter().map(|row| Some(row.level)).collect(heap)
}

// The table of a model that was drained.
fn drained_table(heap: Global, ground: &Ground) -> Result<Vec<u8>, AllocError> {
    table_of(heap, &drained_rows(heap, ground)?)
}

// The levels beside those that a search of all ways gives. It and the two below are not one function: what they compare are two types, and two
// closures for each would be no plainer.
pub fn compare_ways(run: &mut Run, ground: &Ground) -> Result<(), AllocError> {
    let found = drained_levels(run.heap, ground)?;
    let expected = lowest_ways(run.heap, ground)?;
    run.tallies.note_all(Comparison::Ways, &found, &expected)
}

// The levels beside those that floods at every height give.
fn compare_floods(run: &mut Run, ground: &Ground) -> Result<(), AllocError> {
    let found = drained_levels(run.heap, ground)?;
    let expected = flooded_levels(run.heap, ground)?;
    run.tallies.note_all(Comparison::Floods, &found, &expected)
}

// Level, flow, place and amount of each cell beside those of the rule worked out plainly.
fn compare_rule(run: &mut Run, ground: &Ground) -> Result<(), AllocError> {
    let found = drained_rows(run.heap, ground)?;
    let expected = worked_out(run.heap, ground)?;
    run.tallies.note_all(Comparison::Rule, &found, &expected)
}

// What rained and what leaves, as draining answers them, beside the sum of the rain.
fn compare_sums(run: &mut Run, ground: &Ground) -> Result<(), AllocError> {
    let bytes = ground.file(run.heap)?;
    let mut lists = Lists::new(run.heap, ground.spots.len())?;
    let rain = ground.all_rain();
    let sums = lists
        .drain(&bytes)
        .map(|drained| (drained.rain.0, drained.leaves.0));
    let agrees = sums == Ok((rain, rain));
    run.tallies.note(Comparison::Sums, agrees)
}

// The table of a drained model must be accepted.
fn compare_table(run: &mut Run, ground: &Ground) -> Result<(), AllocError> {
    let bytes = ground.file(run.heap)?;
    let table = drained_table(run.heap, ground)?;
    let fault = table_fault(run.heap, ground, &table)?;
    let agrees = check(&bytes, &table).is_ok() && fault.is_none();
    run.tallies.note(Comparison::Tables, agrees)
}

// What is compared of a model that is not damaged.
pub fn compare_whole(run: &mut Run, ground: &Ground) -> Result<(), AllocError> {
    compare_floods(run, ground)?;
    compare_rule(run, ground)?;
    compare_sums(run, ground)?;
    compare_table(run, ground)
}

// What is said where some of the slices are too short.
fn compare_short(run: &mut Run, ground: &Ground) -> Result<(), AllocError> {
    let bytes = ground.file(run.heap)?;
    let mut lists = Lists::new(run.heap, ground.spots.len())?;
    let expected = lists.cut_some(&mut run.dice).map(Refusal::Short);
    let found = lists.drain(&bytes).err();
    run.tallies
        .note_refusal(Comparison::ShortSlices, found, expected)
}

// What is said of a damaged file of the model.
fn compare_damaged_file(run: &mut Run, ground: &Ground) -> Result<(), AllocError> {
    let bytes = damaged(run.heap, &mut run.dice, &ground.file(run.heap)?)?;
    let mut lists = Lists::new(run.heap, ground.spots.len())?;
    let expected = check_model(&bytes).err();
    let found = lists.drain(&bytes).err();
    run.tallies
        .note_refusal(Comparison::DamagedModels, found, expected)
}

// What is said of a damaged table of the model.
fn compare_damaged_table(run: &mut Run, ground: &Ground) -> Result<(), AllocError> {
    let bytes = ground.file(run.heap)?;
    let table = drained_table(run.heap, ground)?;
    let table = damaged(run.heap, &mut run.dice, &table)?;
    let expected = table_fault(run.heap, ground, &table)?;
    let found = check(&bytes, &table).err();
    run.tallies
        .note_refusal(Comparison::DamagedTables, found, expected)
}

// What is compared of damage to a model: 10 cut slices, 20 damaged files and 20 damaged tables.
pub fn compare_damaged(run: &mut Run, ground: &Ground) -> Result<(), AllocError> {
    for _ in 0..10 {
        compare_short(run, ground)?;
    }
    for _ in 0..20 {
        compare_damaged_file(run, ground)?;
        compare_damaged_table(run, ground)?;
    }
    Ok(())
}

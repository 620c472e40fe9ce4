// The lines that are printed of a drained model; specs/Lines.antt says which bytes they are.
ghost use Rattle.std.specs.Prelude.{◌≡◌, ◌++◌, Some, IfOk, string_bytes, OnOk, slice_index};
ghost use Rattle.model.specs.Bytes.{count};
ghost use Rattle.model.specs.OfModel.{bytes_of};
ghost use Rattle.amounts.specs.Joined.{joined};
ghost use Rattle.tables.specs.Lines.{summary_text, level_text, exit_text, refusal_line, level_of, exit_of, level_above, exit_above, drain_lines};

use crate::printing::{push_line, push_lines};
use amounts::answer::Drained;
use amounts::passing::leaves_at;
use model::land::Model;
use model::refusal::Refusal;
use model::units::{Amount, Cell, Height};
use std::alloc::{AllocError, Global};
use std::fmt;

// The line of a refusal.
pub fn refusal_line(heap: Global, refusal: Refusal) -> Result<String, AllocError>
    ensures { IfOk result (λ s. string_bytes s ≡ refusal_line refusal) }
{
    format!(in heap; "{refusal}\n")
}

// How many cells a model has, what rained on it and what leaves it.
#[derive(Clone, Copy)]
struct Summary {
    cells: u32,
    rain: Amount,
    leaves: Amount,
}

impl fmt::Display for Summary {
    ghost output = { λ s. Some (summary_text s.cells s.rain.0 s.leaves.0) };

    fn fmt<W: fmt::Write>(&self, f: &mut fmt::Formatter<W>) -> fmt::Result {
        write!(
            f,
            "cells {} rain {} leaves {}",
            self.cells, self.rain.0, self.leaves.0
        )
    }
}

// A cell's level. A type for each sort of line, since a line is what its value displays.
#[derive(Clone, Copy)]
struct Level {
    cell: Cell,
    level: Height,
}

impl fmt::Display for Level {
    ghost output = { λ l. Some (level_text l.cell.0 l.level.0) };

    fn fmt<W: fmt::Write>(&self, f: &mut fmt::Formatter<W>) -> fmt::Result {
        write!(f, "level {} {}", self.cell.0, self.level.0)
    }
}

// What leaves at a cell.
#[derive(Clone, Copy)]
struct Exit {
    cell: Cell,
    amount: Amount,
}

impl fmt::Display for Exit {
    ghost output = { λ e. Some (exit_text e.cell.0 e.amount.0) };

    fn fmt<W: fmt::Write>(&self, f: &mut fmt::Formatter<W>) -> fmt::Result {
        write!(f, "exit {} amount {}", self.cell.0, self.amount.0)
    }
}

// The functions below take the model and the slices that they read one by one: no two need the same ones.
// A cell's level in a slice of levels, 0 where it has none.
fn level_at(levels: &[u32], cell: Cell) -> Height
    ensures { result.0 ≡ slice_index levels.now cell.0 }
{
    Height(levels.get(cell.index()).copied().unwrap_or(0))
}

// A cell's level, if there is such a cell and its level is above its height.
fn level_above(model: &Model<'_>, levels: &[u32], cell: Cell) -> Option<Level>
    ensures { result ≡ level_above (bytes_of model.now) levels.now cell.0 }
{
    let height = model.height(cell)?;
    let level = level_at(levels, cell);
    (level > height).then_some(Level { cell, level })
}

// What leaves at a cell, if there is such a cell and more leaves than rains on it.
fn exit_above(model: &Model<'_>, flow: &[u32], amounts: &[u64], cell: Cell) -> Option<Exit>
    ensures { result ≡ exit_above (bytes_of model.now) flow.now amounts.now cell.0 }
{
    let rain = model.rain(cell)?;
    let amount = leaves_at(flow, amounts, cell);
    (amount > rain).then_some(Exit { cell, amount })
}

// The lines of all cells whose level is above their height.
fn push_levels(out: &mut String, model: &Model<'_>, levels: &[u32]) -> Result<(), AllocError>
    ensures { OnOk result (string_bytes out.new ≡ string_bytes out.old ++ joined (level_of (bytes_of model.now) levels.now) (count (bytes_of model.now))) }
{
    let levels = (0..model.cells()).filter_map(|c| level_above(model, levels, Cell(c)));
    push_lines(out, levels)
}

// The lines of all cells at which more leaves than rains on them.
fn push_exits(
    out: &mut String,
    model: &Model<'_>,
    flow: &[u32],
    amounts: &[u64],
) -> Result<(), AllocError>
    ensures { OnOk result (string_bytes out.new ≡ string_bytes out.old ++ joined (exit_of (bytes_of model.now) flow.now amounts.now) (count (bytes_of model.now))) }
{
    let exits = (0..model.cells()).filter_map(|c| exit_above(model, flow, amounts, Cell(c)));
    push_lines(out, exits)
}

// All lines of a drained model. The slices come one by one: Slices lends them to be written, and here they are only read.
pub fn drain_lines(
    heap: Global,
    model: &Model<'_>,
    levels: &[u32],
    flow: &[u32],
    amounts: &[u64],
    answer: Drained,
) -> Result<String, AllocError>
    ensures { IfOk result (λ s. string_bytes s ≡ drain_lines (bytes_of model.now) levels.now flow.now amounts.now answer.rain.0 answer.leaves.0) }
{
    let mut out = String::new(heap);
    let summary = Summary {
        cells: model.cells(),
        rain: answer.rain,
        leaves: answer.leaves,
    };
    push_line(&mut out, &summary)?;
    push_levels(&mut out, model, levels)?;
    push_exits(&mut out, model, flow, amounts)?;
    Ok(out)
}

// The grid of a model's cells.
ghost use Rattle.std.specs.Prelude.{◌<◌, ◌≤◌};
ghost use Rattle.model.specs.Limits.{max_side};

mod methods;

// A row and a column, each counted from 0.
#[derive(Clone, Copy)]
pub struct Position {
    pub row: u32,
    pub column: u32,
}

// A grid of w columns and h rows, each from 1 to the most that a model may have.
#[derive(Clone, Copy)]
pub struct Grid {
    w: u32,
    h: u32,
    ghost some_columns: { 0 < w },
    ghost few_columns: { w ≤ max_side },
    ghost some_rows: { 0 < h },
    ghost few_rows: { h ≤ max_side },
}

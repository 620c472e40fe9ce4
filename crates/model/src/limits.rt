// The limits and the layout of a model file, each in this one place; specs/Limits.antt says the same to the contracts.

// The most columns, and the most rows, that a model may have.
pub const MAX_SIDE: u32 = 400;

// The greatest height of a cell, in centimetres.
pub const MAX_HEIGHT: u32 = 1_000_000;

// The most rain on a cell, in hundredths of a litre.
pub const MAX_RAIN: u32 = 1_000_000;

// The bytes before the first cell: the numbers of columns and rows.
pub const HEAD_BYTES: usize = 4;

// The bytes of a cell: height, rain and drain mark.
pub const CELL_BYTES: usize = 9;

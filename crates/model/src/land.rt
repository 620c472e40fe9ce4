// A model that was read: its grid, and the bytes that it was read from.
ghost use Rattle.std.specs.Prelude.{◌≡◌, false, length, is_some};
ghost use Rattle.model.specs.Bytes.{columns, rows, start, count};
ghost use Rattle.model.specs.Faults.{fault};

use crate::grid::Grid;

mod values;

// The bytes of a file without a fault, and the grid that they describe.
#[derive(Clone, Copy)]
pub struct Model<'a> {
    grid: Grid,
    bytes: &'a [u8],
    ghost w: { grid.w ≡ columns bytes.now },
    ghost h: { grid.h ≡ rows bytes.now },
    ghost long: { length bytes.now ≡ start (count bytes.now) },
    ghost taken: { is_some (fault bytes.now) ≡ false },
}

// Where a cell sends its water.
ghost use Rattle.std.specs.Prelude.{◌≡◌};
ghost use Rattle.flood.specs.Sent.{sends_code, sends_of};

use model::units::Cell;

// Off the land, or to a cell next to it. No Option of a cell: the project's rules ask for an enum that names both.
#[derive(Clone, Copy, PartialEq, Eq, Debug)]
pub enum Sends {
    Off,
    To(Cell),
}

// The code of off, which is no cell's number; in a slice of levels it stands for none yet. Lent slices hold plain numbers.
pub const NONE: u32 = 4_294_967_295;

// As it is coded in a lent slice.
impl From<Sends> for u32 {
    ghost from_gives = { λ sends code. code ≡ sends_code sends };

    fn from(sends: Sends) -> u32 {
        match sends {
            Sends::Off => NONE,
            Sends::To(cell) => cell.0,
        }
    }
}

// Where a code says that a cell sends.
impl From<u32> for Sends {
    ghost from_gives = { λ code sends. (sends ≡ sends_of code) × (sends_code sends ≡ code) };

    fn from(code: u32) -> Sends {
        if code == NONE {
            Sends::Off
        } else {
            Sends::To(Cell(code))
        }
    }
}

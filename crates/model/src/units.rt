// Cell numbers, heights and amounts: three sorts of number that do not mix.
ghost use Rattle.std.specs.Prelude.{◌≡◌, max};

// A cell's number: cells are numbered along rows from 0.
#[derive(Clone, Copy, PartialEq, Eq, PartialOrd, Ord, Debug)]
pub struct Cell(pub u32);

// A height or a water level, in centimetres.
#[derive(Clone, Copy, PartialEq, Eq, PartialOrd, Ord, Debug)]
pub struct Height(pub u32);

// An amount of water, rain too, in hundredths of a litre.
#[derive(Clone, Copy, PartialEq, Eq, PartialOrd, Ord, Debug)]
pub struct Amount(pub u64);

impl Cell {
    // The cell's place in a slice that has one entry for each cell: the one place where the number's type changes.
    pub fn index(self) -> usize
        ensures { result ≡ self.0 }
    {
        self.0 as usize
    }
}

impl Height {
    // The higher of two heights. A method beside the library's max, because its contract speaks of the numbers and not of an order.
    pub fn higher(self, other: Height) -> Height
        ensures { result.0 ≡ max self.0 other.0 }
    {
        self.max(other)
    }
}

// Why basins are refused.
ghost use Rattle.std.specs.Prelude.{◌≡◌};
ghost use Rattle.basins.specs.declared.short.Refused.TheVariants.{Drain, Basins};

use model::refusal::Refusal;

// A lent slice that is too short for the cells of the model.
#[derive(Clone, Copy, PartialEq, Eq, Debug)]
pub enum Short {
    Flow,
    Work,
    Exits,
    Cells,
}

// Draining is refused, or a slice for the basins is too short.
#[derive(Clone, Copy, PartialEq, Eq, Debug)]
pub enum Refused {
    Drain(Refusal),
    Basins(Short),
}

impl From<Refusal> for Refused {
    ghost from_gives = { λ refusal refused. refused ≡ Drain refusal };

    fn from(refusal: Refusal) -> Refused {
        Refused::Drain(refusal)
    }
}

impl From<Short> for Refused {
    ghost from_gives = { λ short refused. refused ≡ Basins short };

    fn from(short: Short) -> Refused {
        Refused::Basins(short)
    }
}

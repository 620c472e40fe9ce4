// Why a row was not applied, or a text could not be made.
ghost use Rattle.std.specs.Prelude.{◌≡◌};
ghost use Rattle.changes.specs.declared.failure.Failure.TheVariants.{Refused, Memory};

use model::refusal::Refusal;
use std::alloc::AllocError;

// The model is refused, or there is not enough memory.
#[derive(Debug, Drop)]
pub enum Failure {
    Refused(Refusal),
    Memory,
}

impl From<Refusal> for Failure {
    ghost from_gives = { λ e f. f ≡ Refused e };

    fn from(refusal: Refusal) -> Failure {
        Failure::Refused(refusal)
    }
}

impl From<AllocError> for Failure {
    ghost from_gives = { λ _ f. f ≡ Memory };

    fn from(_e: AllocError) -> Failure {
        Failure::Memory
    }
}

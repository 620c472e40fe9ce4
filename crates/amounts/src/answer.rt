// What draining answers.
use model::units::Amount;

// The looks made in the queue, all that rained on the model, and all that leaves it.
#[derive(Clone, Copy, PartialEq, Eq, Debug)]
pub struct Drained {
    pub looks: u32,
    pub rain: Amount,
    pub leaves: Amount,
}

// The same of a model that is drained again, and how many of its cells have another level than before.
#[derive(Clone, Copy, PartialEq, Eq, Debug)]
pub struct DrainedAgain {
    pub drained: Drained,
    pub changed: u32,
}

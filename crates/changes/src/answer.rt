// What is answered to a change.
use model::refusal::Refusal;
use model::units::Amount;

// What leaves the changed model, and how many of its cells have another level than just before this change.
#[derive(Clone, Copy, PartialEq, Eq, Debug)]
pub struct Changed {
    pub leaves: Amount,
    pub levels: u32,
}

// What came of a change, or why it was refused; nothing changed then.
pub type Answer = Result<Changed, Refusal>;

// Amounts of water: what comes to each cell, what leaves the land, and the call that drains a model.
#![tactic(auto)]

pub mod again;
pub mod answer;
pub mod draining;
pub mod passing;
pub mod rows;
#[cfg(test)]
mod tests;
pub mod theorems;

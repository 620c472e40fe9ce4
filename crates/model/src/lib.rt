// Height models: their cells, their bytes, and the land that they describe.
#![tactic(auto)]

mod bytes;
pub mod edits;
pub mod grid;
pub mod land;
pub mod limits;
pub mod reading;
pub mod refusal;
pub mod slices;
pub mod steps;
#[cfg(test)]
mod tests;
pub mod theorems;
pub mod units;

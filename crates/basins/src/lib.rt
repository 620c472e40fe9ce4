// Exits and basins: where each cell's water leaves the land.
#![tactic(auto)]

pub mod draining;
pub mod parting;
pub mod short;
#[cfg(test)]
mod tests;
pub mod theorems;
pub mod tracing;

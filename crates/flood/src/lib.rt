// Levels and flow: what they are, what holds of them on any land, and the flood that finds them.
#![tactic(auto)]

pub mod flooding;
pub mod sends;
#[cfg(test)]
mod tests;
pub mod theorems;

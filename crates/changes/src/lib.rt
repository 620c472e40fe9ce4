// Changes of a model: a row of changes as text, read, and applied to a model and its table.
#![tactic(auto)]

pub mod answer;
mod applying;
pub mod asked;
mod editing;
pub mod failure;
mod moving;
pub mod row;
#[cfg(test)]
mod tests;
pub mod text;
pub mod theorems;

// Tables from anybody: accepted exactly when they are right.
#![tactic(auto)]

pub mod checking;
mod table;
#[cfg(test)]
mod tests;
pub mod theorems;

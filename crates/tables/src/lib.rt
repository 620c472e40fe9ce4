// What planners get: the lines and the table of a drained model, of its basins and of a row of changes, and refusals as lines.
#![tactic(auto)]

mod answers;
pub mod changing;
pub mod failure;
pub mod lines;
mod memory;
pub mod parting;
mod printing;
pub mod report;
pub mod reports;
mod rows;

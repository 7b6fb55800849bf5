//! Workers of a phase that compute cells on stores of their own.
#![tactic(auto)]

mod runs;
mod worker;

pub use runs::CellRuns;
pub use worker::{CellWorker, LentCells};

#[cfg(test)]
mod tests;

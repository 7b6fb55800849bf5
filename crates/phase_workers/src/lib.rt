//! Loops over cells outside of cells, run by workers.
#![tactic(auto)]

mod arrays;
mod backgrounds;
mod covered;
mod folds;
mod outside;
mod over;
mod program;
mod sources;
mod strips;
mod teams;

pub use outside::loop_outside;
pub use over::over_outside;
pub use phase_books::{Nesting, Workers};
pub use phase_team::{Gate, NoGate};
pub use program::run;
pub use run_eval::Plan;

//! Selections by scalars become selections by vectors of one number.
#![tactic(auto)]

mod choice;
mod functions;
mod walk;

pub use functions::select_by_vectors;

//! The variables of each function are numbered one after another.
#![tactic(auto)]

pub mod numbered;
mod pass;

pub use pass::number_densely;

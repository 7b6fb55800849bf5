//! Copy propagation: sources are used in the place of copies.
#![tactic(auto)]

mod functions;
mod operands;
mod sources;
mod walk;

pub use functions::propagate_copies;

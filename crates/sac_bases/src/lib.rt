//! The base of each expression of a function, which is known before the program runs.
#![tactic(auto)]

mod base;
mod bindings;
mod names;

pub use base::{base_of, bases_of};
pub use bindings::{base_in, known_in};
pub use names::BoundNames;

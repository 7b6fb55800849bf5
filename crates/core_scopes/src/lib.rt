//! What the lowering to cores keeps while it goes through a function: the variables of names, and the bindings that are made.
#![tactic(auto)]

mod builder;
mod names;
mod scope;

pub use builder::Builder;
pub use names::{known, known_in_both, names_of, once_bound, once_bound_in_either};
pub use scope::Scope;

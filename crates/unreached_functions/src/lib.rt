//! Functions that `main` does not reach lose their bodies.
#![tactic(auto)]

mod calls;
mod empty;
mod marking;

pub use empty::empty_unreached;

//! The calls in a function whose arguments have known shapes.
#![tactic(auto)]

mod calls;
mod walk;

pub use calls::{KnownCall, known_calls};

//! The walk over the phrases of a function that finds its earliest violation of a rule.
#![tactic(auto)]

mod walk;

pub use walk::{block, expressions};

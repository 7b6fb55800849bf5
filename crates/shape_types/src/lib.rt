//! The order of types, what two types have in common, and which instance of a name a call takes.
#![tactic(auto)]

mod choice;
mod order;

pub use choice::{Instance, pick};
pub use order::{below, join, meet};

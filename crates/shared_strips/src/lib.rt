//! Operators on long strips, in parts by several threads.
#![tactic(auto)]

mod parts;
mod strips;

pub use parts::{shared_both, shared_right};
pub use strips::{Alone, Strips};

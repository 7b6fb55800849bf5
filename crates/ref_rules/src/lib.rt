//! The rules by which references are kept and released.
#![tactic(auto)]

pub mod listed_uses;
mod steps;
mod surplus;

pub use steps::{push_keeps, push_releases};
pub use surplus::needing_more;

//! Cuts the positions of a loop into chunks for workers.

#![tactic(auto)]

mod cuts;
mod cutting;
mod lends;

pub use cuts::{Cuts, cut};
pub use cutting::Cutting;
pub use lends::lend;

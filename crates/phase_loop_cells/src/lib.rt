//! The cells of loops, as a worker computes them on a store of its own.
#![tactic(auto)]

mod copies;
mod fill;
mod loops;
mod ranges;
mod scratch;
mod walk;

pub use copies::Background;
pub use loops::LoopCells;
pub use ranges::{made_ranges, part_ranges, source_ranges};
pub use scratch::CellScratch;
pub use walk::Walk;

//! The runs of a loop: indices along a row, and positions of a frame, that one range or part holds.
#![tactic(auto)]

mod grids;
mod members;
mod positions;
mod ranges;

pub use positions::{Run, Runs, rows};
pub use ranges::{RangeRun, run_at};

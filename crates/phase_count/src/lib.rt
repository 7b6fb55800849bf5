//! The phases of a run so far, and the tally that their tables are closed into.
#![tactic(auto)]

mod alone;
mod count;

pub use count::{OpenTally, PhaseCount, Totals, numbers_of};

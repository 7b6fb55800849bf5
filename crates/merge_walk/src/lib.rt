//! One walk over a block that merges each loop with the loops in its cells where that can be done, the inner loops first.
#![tactic(auto)]

mod here;
pub mod planned_merges;
mod walk;

pub use walk::merge_block;

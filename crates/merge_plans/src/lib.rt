//! Whether a parted loop can be merged with the loops in its cells, and the frame of the merged loop.
#![tactic(auto)]

mod filling;
mod finding;
mod grids;
mod judging;
mod planning;
pub mod scalarisable;

pub use finding::{Nest, nest_of};
pub use grids::joined_grid;
pub use planning::{MergePlan, merge_plan};

//! Tests at run time whether a mark can be reached: from the functions of counted code, and from the cells of a loop.
#![tactic(auto)]

mod groups;
mod loops;
mod walk;

pub use groups::clear_groups;
pub use loops::{cells_are_clear, parted_cells_are_clear};

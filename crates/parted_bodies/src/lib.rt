//! The parts of a parted loop that stands for a with-loop: copies of bodies with new variables.
#![tactic(auto)]

mod binders;
mod copying;
mod names;
mod parts;

pub use binders::bound_in;
pub use copying::copy_block;
pub use names::{Names, Progress};
pub use parts::{base_var, parted_op, parts_of};

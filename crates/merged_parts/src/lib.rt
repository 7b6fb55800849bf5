//! The parts of a parted loop that is merged with the loops in its cells: copies of the outer bindings and of the inner bodies, with new variables.
#![tactic(auto)]

mod bodies;
mod indices;
mod merging;
mod splitting;

pub use merging::merged_parts;

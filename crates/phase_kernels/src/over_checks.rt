//! Tests whether a loop over the array of a marked variable may be a phase.

mod arrays;
mod holders;
mod own;

pub use own::may_be_over;

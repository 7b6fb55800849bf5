//! Loops whose cells are loops become one loop, until none is left that can be merged.
#![tactic(auto)]

mod laws;
mod pass;

pub use laws::axes_suffice;
pub use pass::scalarise_all;

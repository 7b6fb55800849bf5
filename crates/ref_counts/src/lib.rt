//! References are counted: where code keeps and where it releases them.
#![tactic(auto)]

mod functions;
mod held;
mod place;
mod steps;
mod uses;

pub use functions::count_refs;

//! The value meaning of a program, and the plain evaluator, which computes it from the tree.
#![tactic(auto)]

mod evaluate;
mod program;

pub use program::plain_run;

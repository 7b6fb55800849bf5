//! The canonical text of a program.
#![tactic(auto)]

mod level;
mod lists;
mod program;
mod texts;
mod tree;

pub use program::print_program;

//! The compiler: from an accepted program to what is run.
#![tactic(auto)]

mod compiler;
pub mod loop_turns;

pub use compiler::{Compiled, compile};

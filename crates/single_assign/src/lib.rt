//! The core of a program: each assignment makes new variables, each conditional gives the variables bound in it, and each loop carries those that it binds.
#![tactic(auto)]

mod context;
mod lower;
mod program;

pub use program::to_core;

//! How deep blocks and calls nest in counted code.
#![tactic(auto)]

mod called;
mod needs;
mod nesting;
mod walk;

pub use nesting::Nesting;

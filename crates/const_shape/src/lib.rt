//! Literal variables are bound by constants.
#![tactic(auto)]

mod functions;
mod plain;
mod walk;

pub use functions::propagate;
pub use walk::settle_block;

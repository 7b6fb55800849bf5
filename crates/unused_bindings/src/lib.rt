//! Dead binding elimination: bindings go that are not used and whose right side is known to have a value.
#![tactic(auto)]

mod functions;
mod needed;
mod right;
mod swept;
mod walk;

pub use functions::remove_unused;

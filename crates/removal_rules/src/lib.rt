//! The rules by which bindings go: which right sides have a value, and which variables are used.
#![tactic(auto)]

mod total;
mod used;

pub use total::has_value;
pub use used::{add_all, add_head, is_needless, set_of, united};

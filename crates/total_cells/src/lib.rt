//! Whether the body of a part never faults, whatever member of the part's grid the index is.
#![tactic(auto)]

mod inside;
pub mod loop_selections;
mod plain;
mod walk;

pub use inside::is_inside;
pub use walk::{body_results, is_total, pass_bindings, total_results};

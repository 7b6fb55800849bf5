//! Whether two blocks of counted code are equal as terms, found by a walk through both side by side.
#![tactic(auto)]

mod heads;
mod leaves;
mod lists;
mod plain;
mod walk;

pub use lists::same_vars;
pub use walk::same_block;

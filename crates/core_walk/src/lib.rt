//! One walk over a block that any pass can take which changes right sides, each after the blocks in it, by what is known where they stand.
#![tactic(auto)]

mod rewriting;
mod walk;

pub use rewriting::{Place, Rewriting};
pub use walk::walk_block;

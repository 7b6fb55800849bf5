//! One walk over a block in which with-loops become parted loops.
#![tactic(auto)]

mod given;
mod parting;
mod walk;

pub use given::Given;
pub use walk::norm_block;

//! One walk over a block in which pairs of parted loops are folded.
#![tactic(auto)]

pub mod fold_laws;
mod level;
mod making;
mod pairing;
mod state;
mod values;
mod walk;

pub use state::{Fold, Folding, Given};
pub use walk::fold_block;

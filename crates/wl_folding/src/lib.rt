//! Pairs of parted loops are folded, until none is left.
#![tactic(auto)]

mod pass;

pub use pass::{FoldLog, fold_all};

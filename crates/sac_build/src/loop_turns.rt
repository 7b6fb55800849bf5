//! Parted loops are made, folded and merged, in turn.

mod turns;

pub use turns::{Optimised, optimise_loops};

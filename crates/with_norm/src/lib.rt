//! With-loops whose bounds and shapes are known before the run become parted loops.
#![tactic(auto)]

mod pass;

pub use pass::normalise;

//! The parts of a consumer into which a producer is folded.
#![tactic(auto)]

mod folding;
mod pieces;
mod renaming;
mod taking;

pub use pieces::{folded_part, folded_pieces};
pub use taking::Source;

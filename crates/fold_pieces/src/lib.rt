//! The grid of a part, cut into pieces that lie, moved by any of some vectors, as a whole in one grid of a producer.
#![tactic(auto)]

mod cutting;
mod holding;
mod keeping;
mod moving;
mod within;

pub use cutting::{Cut, fold_pieces};
pub use keeping::FoldPiece;

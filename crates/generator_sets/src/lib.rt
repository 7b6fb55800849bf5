//! Sets of index vectors that repeat: stepped grids of several axes, their meet and difference, and the partition of a frame by generators.
//!
//! Each axis of the frame is cut into runs of neighbours that belong to the same generators on that axis. A product of such runs lies as a
//! whole in a generator or outside it, so its first vector tells for all its members.
#![tactic(auto)]

mod cut;
mod error;
mod first;
mod laws;
mod merging;
mod moving;
mod parts;
mod product;
mod sets;

pub use cut::uniform_pieces;
pub use error::GenError;
pub use laws::{canonical_count, pieces_of_a_set};
pub use moving::shift;
pub use parts::{Parts, partition};
pub use sets::{meet, minus};

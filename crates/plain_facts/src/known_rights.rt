//! Blocks and right sides that a walk makes anew, with what is known of their values.

mod known;

pub use known::{KnownBlock, KnownRight};

//! Buffers of cells with counts of their references.
//!
//! The counts follow G. E. Collins, "A method for overlapping and erasure of lists", CACM 3(12), 1960: each holder of
//! a buffer counts once, and the buffer is given back with its last reference.

#![tactic(auto)]

mod heap;

pub use heap::{BufferId, Heap};

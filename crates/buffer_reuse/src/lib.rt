//! The pass that marks parted loops: a marked loop takes over the buffer of an array that ends in it.
#![tactic(auto)]

mod functions;
mod rights;
mod walk;

pub use functions::mark_reuse;

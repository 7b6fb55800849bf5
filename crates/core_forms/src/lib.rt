//! Laws of whole cores in which one thing is replaced by another: calls by bodies, with-loops by parted loops, pairs and nests by one loop, copies by sources.
#![tactic(auto)]

pub mod cleaning;
pub mod edits;
pub mod fold;
pub mod inlined_bodies;
pub mod inlining;
pub mod merge;
pub mod norm;
pub mod selections;

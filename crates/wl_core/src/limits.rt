//! The limits of a phase. Its positions are at most as many as an array has elements.

/// The most workers of a phase.
pub const MOST_WORKERS: u32 = 64;

/// The most chunks of a phase.
pub const MOST_CHUNKS: u64 = 4096;

/// The most holds that a worker may have.
pub const MOST_HOLDS: u64 = 1 << 56;

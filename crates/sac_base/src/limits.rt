//! Limits that several layers share.

/// The most references that a buffer may have when a phase opens, and that a heap gives to one.
pub const MOST_REFERENCES: u64 = 1 << 62;

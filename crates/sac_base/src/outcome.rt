use crate::{Array, Fault};

/// What a program comes to.
#[derive(Drop)]
pub enum Outcome {
    /// The results of `main`, in order.
    Values(Vec<Array>),
    Faulted(Fault),
}

/// What became of a buffer that one reference was given up of.
#[derive(Clone, Copy, Debug, PartialEq, Eq)]
pub enum Released {
    /// Other references are left.
    More,
    /// It was the last reference.
    Freed,
}

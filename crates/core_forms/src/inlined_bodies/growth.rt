//! How far a body has grown.

/// How far a body has grown while calls in it were inlined.
#[derive(Clone, Copy, Debug, PartialEq, Eq)]
pub struct Growth {
    /// The number of the bindings that were put in.
    pub count: u64,
    /// The least number above those of all variables.
    pub above: u64,
}

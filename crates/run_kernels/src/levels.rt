//! How far calls may go on.

use crate::groups::PlainGroups;

/// The program that runs, with the groups that loops may call, and how far loops and calls may go on where a loop is met.
#[derive(Clone, Copy)]
pub struct CallLevels<'a> {
    pub plain: &'a PlainGroups<'a>,
    /// The most turns of each execution of a loop.
    pub turns: u64,
    /// How many levels deeper a function may be called.
    pub left: u64,
    /// How many calls of inline functions may be nested.
    pub nest: u64,
    /// Calls are tried as kernels where no more levels are left than so many.
    pub tried: u64,
}

//! What a walk reads.

use plain_facts::CalledShapes;
use variable_bases::BaseTable;

/// What a walk over a function reads.
#[derive(Clone, Copy)]
pub struct Given<'a> {
    /// The known shapes of the results of calls.
    pub called: &'a CalledShapes,
    /// The bases of the function's variables.
    pub bases: &'a BaseTable,
    /// One more than the greatest number of a variable where the walk began.
    pub first: u64,
    /// How many variables were made in the functions before this one.
    pub made: u64,
}

// The most variables that are made in all functions of a core before a with-loop counts as one for which there is no memory. A body is copied for each
// part of each with-loop around it, so a source of some kilobytes may ask for more than any machine has.
const MOST_MADE: u64 = 1_048_576;

impl Given<'_> {
    /// Whether no more with-loops are replaced, where the next variable that is made has this number.
    pub fn is_spent(&self, next: u64) -> bool {
        let here = next.saturating_sub(self.first);
        self.made.saturating_add(here) > MOST_MADE
    }
}

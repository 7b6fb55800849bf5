//! Laws of inlining: functions in whose bodies calls are replaced by the bodies of the inline functions that they call.

ghost use Rattle.core_forms.specs.inlined_bodies.Laws.{FunctionsMayBeInlined, PassesGoOn};

mod growth;

pub use growth::Growth;

/// Law: a well-formed core in one function of which calls of inline functions are replaced by the bodies of these, at any depth of its blocks, has
/// the same outcome, on all arguments and under all limits, and is well formed.
pub fn functions_may_be_inlined()
    ensures { FunctionsMayBeInlined }
{}

/// Law: where each call that is left in the inline functions before a place, or in all of them, is one of a function that is too large, this holds
/// up to the place after the function at the place was gone through.
pub fn passes_go_on()
    ensures { PassesGoOn }
{}

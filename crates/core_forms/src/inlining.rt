//! Laws of inlining: the body of a function in the place of a call.

ghost use Rattle.core_forms.specs.inlining.Laws.{BodiesMeanTheirFunctions, CallsMayBeInlined, InlineStepsKeepOutcomes};

/// Law: checks of the arguments, the body with raised variables, and checks of the results mean what the function means for its arguments, faults and
/// their sites included.
pub fn bodies_mean_their_functions()
    ensures { BodiesMeanTheirFunctions }
{}

/// Law: a call of a group whose only instance is inline may be replaced by that instance's body, where inline calls nest deeper than its place.
pub fn calls_may_be_inlined()
    ensures { CallsMayBeInlined }
{}

/// Law: a core in which calls, each anywhere in one function, are replaced by the bodies of their groups' only instances, which are inline, one after
/// another, has the same outcome, and its inline functions call below their places too.
pub fn inline_steps_keep_the_outcome()
    ensures { InlineStepsKeepOutcomes }
{}

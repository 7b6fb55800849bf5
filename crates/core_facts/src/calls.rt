//! Laws of calls, for inlining.

ghost use Rattle.core_facts.specs.calls.Laws.{EnoughIsEnough, CallsHaveTheirSay, InlinedFunctionsKeepOutcomes, FunctionsOnArraysKeepOutcomes, BlocksMayBeSpliced};

/// Law: a block means the same where the calls of the groups in it mean the same.
pub fn calls_have_their_say()
    ensures { CallsHaveTheirSay }
{}

/// Law: cores have the same outcome if their functions mean the same where calls are those of the first core and inline calls may nest as deep as
/// they need.
pub fn inlined_functions()
    ensures { InlinedFunctionsKeepOutcomes }
{}

/// Law: cores have the same outcome on arrays if their functions mean the same on arrays of their parameters' types, where calls are those of the
/// first core, give arrays of the declared types for arrays, and inline calls may nest as deep as they need.
pub fn functions_on_arrays()
    ensures { FunctionsOnArraysKeepOutcomes }
{}

/// Law: the bindings of a block, followed by copies of its results, are a binding of what the block gives, faults included. What follows uses none of
/// the block's own variables.
pub fn splicing_all()
    ensures { BlocksMayBeSpliced }
{}

/// Law: an inline function means the same however deep inline calls may nest, if that is deeper than its own place.
pub fn enough_is_enough()
    ensures { EnoughIsEnough }
{}

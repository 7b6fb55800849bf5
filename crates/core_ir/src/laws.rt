//! Laws of the meaning, on which the passes over the core stand.

ghost use Rattle.core_ir.specs.Statements.{RenamedMeansTheSame, ScopeDecides, UnusedHasNoSay, UnusedMayGo, SplicedBindsTheResult, EditedMeansTheSame};
ghost use Rattle.core_ir.specs.Statements.{BodiesDecide, FunctionsDecide};

/// Law: blocks that differ in the numbers of variables alone mean the same under environments that agree along the link.
pub fn renaming()
    ensures { RenamedMeansTheSame }
{}

/// Law: a block means the same under environments that agree on the variables in scope.
pub fn coincidence()
    ensures { ScopeDecides }
{}

/// Law: a variable that a block does not use has no say, so a binding of it that does not fault may go.
pub fn unused_variable()
    ensures no_say { UnusedHasNoSay }
    ensures dropped { UnusedMayGo }
{}

/// Law: the bindings of a block with one result, followed by a copy of the result, are a binding of what the block gives, faults included. What
/// follows uses none of the block's own variables.
pub fn splicing()
    ensures { SplicedBindsTheResult }
{}

/// Law: where one place inside a block is changed, and the old and the new mean the same in each environment that is as the bindings and parts on
/// the way say, the whole means the same.
pub fn replacing_one_place()
    ensures { EditedMeansTheSame }
{}

/// Law: a core in which each function means the same as in the other, where calls are those of the first core, has the same outcome.
pub fn function_by_function()
    ensures bodies { BodiesDecide }
    ensures functions { FunctionsDecide }
{}

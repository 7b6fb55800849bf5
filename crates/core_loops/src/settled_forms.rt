//! Laws: a well-formed core stays well formed where its literal variables are bound by constants.

ghost use Rattle.core_loops.specs.settled_forms.Laws.{SettledIsWellFormed, SettledKeepsTheOutcome, SettledHasNoOtherLiteral};

/// Law: the core in which each literal variable is bound by a constant is well formed where the core is.
pub fn settled_is_well_formed()
    ensures { SettledIsWellFormed }
{}

/// Law: the core in which each literal variable of a well-formed core is bound by a constant has the same outcome on arrays.
pub fn settled_keeps_the_outcome()
    ensures { SettledKeepsTheOutcome }
{}

/// Law: in the core in which each literal variable is bound by a constant there is no other literal variable.
pub fn settled_has_no_other_literal()
    ensures { SettledHasNoOtherLiteral }
{}

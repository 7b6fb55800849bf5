//! Laws: the values of a well-formed core have the bases that well-formedness says.

ghost use Rattle.core_facts.specs.bases.Laws.{BlocksAreTyped, CallsAreTyped, CallsGoBelow};

/// Law: a block whose bases agree, with variables that are bound once, gives values of these bases where the environment and the calls do.
pub fn blocks_are_typed()
    ensures { BlocksAreTyped }
{}

/// Law: calls of a well-formed core give the bases that the instance found by the bases of the arguments gives, if they give what an instance that
/// takes the arguments declares.
pub fn calls_are_typed()
    ensures { CallsAreTyped }
{}

/// Law: in a well-formed core inline functions call inline functions below their own place.
pub fn calls_go_below()
    ensures { CallsGoBelow }
{}

//! Laws: literal variables are bound by constants, in a whole core.

ghost use Rattle.core_facts.specs.constants.Laws.{ConstantsForLiterals};

/// Law: the core in which each literal variable is bound by a constant has the same outcome on arrays.
pub fn constants_for_literals()
    ensures { ConstantsForLiterals }
{}

//! Laws of well-formedness: blocks with more variables in scope, and blocks with other variables.

ghost use Rattle.core_forms.specs.edits.Laws.{ScopesMayWiden, BasesMayWiden, ScopesMayBeMapped, BasesMayBeMapped, NamesMayBeMapped, CallsStay};

/// Law: a block stays scoped, and its bases agree, where further variables are in scope that it does not bind.
pub fn more_may_be_in_scope()
    ensures scopes { ScopesMayWiden }
    ensures bases { BasesMayWiden }
{}

/// Law: a block in which other variables stand for all of its own, one for one, stays scoped, its bases agree, its variables are bound once, and it calls
/// the same groups.
pub fn other_variables_may_stand()
    ensures scopes { ScopesMayBeMapped }
    ensures bases { BasesMayBeMapped }
    ensures names { NamesMayBeMapped }
    ensures calls { CallsStay }
{}

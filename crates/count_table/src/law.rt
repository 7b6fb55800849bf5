// What the rule of a phase's table says, as a law over every table in which it holds.
ghost use Rattle.count_table.specs.Laws.{RuleHasFacts};

/// A law. Between any two steps of any threads as many chunks were drawn as the table's first word says, a buffer that a
/// worker holds has a count of at least 2, and no word wraps.
pub fn rule_facts<T>()
    ensures { RuleHasFacts T }
{}

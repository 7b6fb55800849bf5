//! Laws: a merge step keeps the meaning.

ghost use Rattle.core_loops.specs.merge_steps.Laws.{MergeStepsKeepOutcomes};

/// Law: a merge step between well-formed cores keeps the outcome on arrays.
pub fn merge_steps_keep_the_outcome()
    ensures { MergeStepsKeepOutcomes }
{}

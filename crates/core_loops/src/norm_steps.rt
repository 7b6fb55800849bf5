//! Laws: a parted loop in the place of a with-loop.

ghost use Rattle.core_loops.specs.norm_steps.Laws.{GenarraysAreParted, ModarraysAreParted, ScalarsSelectAsVectors, FoldsAreParted, NormStepsKeepOutcomes};
ghost use Rattle.core_loops.specs.norm_steps.Laws.{FunctionsHaveTables};

/// Law: where the bounds are literal and the shapes known, the parted loop in the place of a genarray with-loop means the same, faults and their
/// sites included.
pub fn genarrays_are_parted()
    ensures { GenarraysAreParted }
{}

/// Law: the same of a modarray with-loop.
pub fn modarrays_are_parted()
    ensures { ModarraysAreParted }
{}

/// Law: a selection by a scalar is one by the vector of that scalar, faults and their sites included.
pub fn scalars_select_as_vectors()
    ensures { ScalarsSelectAsVectors }
{}

/// Law: the same of a fold with-loop, whose parts are those of generators alone.
pub fn folds_are_parted()
    ensures { FoldsAreParted }
{}

/// Law: a normalising step between well-formed cores keeps the outcome on arrays.
pub fn norm_steps_keep_the_outcome()
    ensures { NormStepsKeepOutcomes }
{}

/// Law: each function of a well-formed core has a table of bases that its variables follow.
pub fn functions_have_tables()
    ensures { FunctionsHaveTables }
{}

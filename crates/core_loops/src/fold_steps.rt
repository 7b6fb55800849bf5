//! Laws: a fold step keeps the meaning.

ghost use Rattle.core_loops.specs.fold_steps.Laws.{ProducersHaveCells, PlacesMayChange, FoldStepsKeepOutcomes};

/// Law: a parted loop of scalar cells whose parts are total, and whose frame is covered, has a cell at each index of its frame.
pub fn producers_have_cells()
    ensures { ProducersHaveCells }
{}

/// Law: where one place inside a block is changed, and the old and the new mean the same in each environment that has the known shapes, literal
/// values and bases at that place, the whole means the same.
pub fn places_may_change()
    ensures { PlacesMayChange }
{}

/// Law: a fold step between well-formed cores keeps the outcome on arrays.
pub fn fold_steps_keep_the_outcome()
    ensures { FoldStepsKeepOutcomes }
{}

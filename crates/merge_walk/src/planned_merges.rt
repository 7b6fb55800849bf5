//! Laws: a loop that is merged by a plan, with the parts that are made for it, is a merge step with new variables.

ghost use Rattle.merge_walk.specs.planned_merges.Laws.{MergeablesFit, PlansAreFresh, WalksArePlaced};

/// Law: the parts of a loop that can be merged with the loops in its cells have grids that fit together.
pub fn mergeables_fit()
    ensures { MergeablesFit }
{}

/// Law: a loop that is merged by a plan is merged with new variables, wherever it stands in scope.
pub fn plans_are_fresh()
    ensures { PlansAreFresh }
{}

/// Law: so are many loops of a block, one after another.
pub fn walks_are_placed()
    ensures { WalksArePlaced }
{}

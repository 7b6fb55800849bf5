//! Laws: a core in which loops were merged with the loops in their cells is well formed, and has fewer parted loops.

ghost use Rattle.core_forms.specs.merge.Laws.{PartedLoopsFall, BindersStayDistinct, BlocksStayPlaced, JoinedGridsFit, BodiesAreMerged};
ghost use Rattle.core_forms.specs.merge.Laws.{InnerPartsAreScoped, AroundIsTotal};
ghost use Rattle.core_forms.specs.merge.Laws.{MergesKeep, NumbersStayBelow, StepsGoOn};

/// Law: where one loop of a block is merged with the loops in its cells, its weight stays, and it has fewer parted loops.
pub fn parted_loops_fall()
    ensures { PartedLoopsFall }
{}

/// Law: where one loop of a block is merged with the loops in its cells and the variables are new, the block still binds each variable
/// once, and is scoped.
pub fn merged_parts_are_distinct()
    ensures distinct { BindersStayDistinct }
    ensures placed { BlocksStayPlaced }
{}

/// Law: the grids of a loop joined with those of the loops in its cells fit the joined frame and cover it.
pub fn joined_grids_fit()
    ensures { JoinedGridsFit }
{}

/// Law: a copy of the outer bindings and of an inner part's body, behind bindings that make the two old indices from the new one, is a merged body.
pub fn bodies_are_merged()
    ensures { BodiesAreMerged }
{}

/// Law: the parts of an inner loop do not use its variable, and the outer bindings may stand in front of each of their bodies.
pub fn inner_parts_are_scoped()
    ensures { InnerPartsAreScoped }
{}

/// Law: bindings around an inner loop that do not use it never fault where they never fault one after another without it.
pub fn around_is_total()
    ensures { AroundIsTotal }
{}

/// Law: a core in one function of which loops were merged, one after another and with new variables, has the same outcome on arrays, is
/// well formed and no heavier, has fewer parted loops, and came by as many merge steps.
pub fn merges_keep()
    ensures keep { MergesKeep }
    ensures below { NumbersStayBelow }
    ensures on { StepsGoOn }
{}

//! Laws: a core in which pairs of parted loops were folded is well formed, and has fewer parted loops.

ghost use Rattle.core_forms.specs.fold.Laws.{PartedLoopsFall, BindersStayDistinct, BlocksStayPlaced, FoldsKeep, NumbersStayBelow};
ghost use Rattle.core_forms.specs.fold.Laws.{StepsGoOn, NamedStepsAreSteps};

/// Law: where a pair of a block is folded, the block has one parted loop less, and its weight stays.
pub fn parted_loops_fall()
    ensures { PartedLoopsFall }
{}

/// Law: where pairs of a block are folded and the new parts bind new variables, the block still binds each variable once, and is scoped.
pub fn folded_parts_are_distinct()
    ensures distinct { BindersStayDistinct }
    ensures placed { BlocksStayPlaced }
{}

/// Law: a core in one function of which pairs were folded, one after another and with new variables, has the same outcome on arrays, is well formed
/// and no heavier, has as many parted loops less as there were pairs, and came by a fold step for each.
pub fn folds_keep()
    ensures keep { FoldsKeep }
    ensures below { NumbersStayBelow }
    ensures on { StepsGoOn }
    ensures named { NamedStepsAreSteps }
{}

//! Laws: a core in which with-loops became parted loops is well formed, and lighter.

ghost use Rattle.core_forms.specs.norm.Laws.{RenamedWeightsStay, WeightsFall, BindersStayDistinct, BlocksStayPlaced, CopiesAreRenamed, CopiesAreAlike};
ghost use Rattle.core_forms.specs.norm.Laws.{CopiesAreNamed, OrderIsFresh};
ghost use Rattle.core_forms.specs.norm.Laws.{WalksKeep, NumbersStayBelow, StepsGoOn, SplitsFit, SomeFit};

/// Law: where one with-loop of a block becomes a parted loop, its weight falls; a block with other variables has the same weight.
pub fn weight_falls()
    ensures falls { WeightsFall }
    ensures stays { RenamedWeightsStay }
{}

/// Law: where one with-loop of a block becomes a parted loop with new variables, the block still binds each variable once, and is
/// scoped.
pub fn replaced_parts_are_distinct()
    ensures distinct { BindersStayDistinct }
    ensures placed { BlocksStayPlaced }
{}

/// Law: a block in which other variables stand for all of its own, kept apart, is a copy of the block; above it components of an index stand for
/// names. Variables that are numbered one after another are distinct.
pub fn copies_are_renamed()
    ensures renamed { CopiesAreRenamed }
    ensures alike { CopiesAreAlike }
    ensures named { CopiesAreNamed }
    ensures fresh { OrderIsFresh }
{}

/// Law: a core in one function of which with-loops became parted loops, one after another and with new variables, has the same outcome on arrays, is
/// well formed and lighter, and came by as many normalising steps.
pub fn steps_keep()
    ensures keep { WalksKeep }
    ensures below { NumbersStayBelow }
    ensures on { StepsGoOn }
{}

/// Law: grids into which a frame is split fit it and cover it, and some of them fit it.
pub fn splits_fit()
    ensures all { SplitsFit }
    ensures some { SomeFit }
{}

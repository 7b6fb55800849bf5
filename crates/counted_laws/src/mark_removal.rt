//! Code whose marks are turned back into releases, and the law that what reaches no mark does the same without them.

ghost use Rattle.counted_laws.specs.mark_removal.Statements.{NoneIsLeft, TheCoreStays, TheCountsStay, UnmarkedStays};
ghost use Rattle.counted_laws.specs.mark_removal.Statements.{BlocksFollowCalls, GeneratorsFollowCalls, PartsFollowCalls};
ghost use Rattle.counted_laws.specs.mark_removal.Statements.{CallsDoTheSame, CallsOfEachLevelDoTheSame};
ghost use Rattle.counted_laws.specs.mark_removal.Statements.{BlocksDoTheSame, GeneratorsDoTheSame, PartsDoTheSame};
ghost use Rattle.counted_laws.specs.mark_removal.Statements.{WithCellsDoTheSame, PartedCellsDoTheSame};

/// Law: code whose marks are turned back into releases has no marks, and the same core. It is well counted where the code was, and code without marks
/// stays as it is.
pub fn marks_are_removed()
    ensures none { NoneIsLeft }
    ensures same { TheCoreStays }
    ensures counted { TheCountsStay }
    ensures stays { UnmarkedStays }
{}

/// Law: a block, generators and parts do the same with calls that do the same for the groups that they call.
pub fn calls_decide()
    ensures blocks { BlocksFollowCalls }
    ensures generators { GeneratorsFollowCalls }
    ensures parts { PartsFollowCalls }
{}

/// Law: a call from which no mark is reached does the same in code without its marks, at each limit on turns, depth and nesting of inline calls.
pub fn calls_reach_no_mark()
    ensures calls { CallsDoTheSame }
    ensures levels { CallsOfEachLevelDoTheSame }
{}

/// Law: a block does the same with the calls of code without its marks, where it calls groups from which no mark is reached. So do the generators of a
/// with-loop, the parts of a parted loop, and the cells of both.
pub fn cells_reach_no_mark()
    ensures blocks { BlocksDoTheSame }
    ensures generators { GeneratorsDoTheSame }
    ensures parts { PartsDoTheSame }
    ensures with_cells { WithCellsDoTheSame }
    ensures parted_cells { PartedCellsDoTheSame }
{}

//! Marked loops: which array a loop may take over for its result, and where each loop has its mark.
#![tactic(auto)]

ghost use Rattle.counted_marks.specs.Statements.{MarkingSetsMarks, MarkingIsCounted, MarkingIsPrompt};
ghost use Rattle.counted_marks.specs.Statements.{MarkingIsWellMarked, MarkingLeavesNone, MarkingKeepsTheCore, UnmarkedIsWellMarked};

/// Law: code whose loops are marked is the code with marks in the place of releases. It is well counted and prompt where the code was, and has the code's
/// core; where the code had no marks it is well marked, and no loop without a mark has a candidate.
pub fn marking_is_right()
    ensures marks { MarkingSetsMarks }
    ensures counted { MarkingIsCounted }
    ensures prompt { MarkingIsPrompt }
    ensures well { MarkingIsWellMarked }
    ensures none_left { MarkingLeavesNone }
    ensures same { MarkingKeepsTheCore }
{}

/// Law: code without marks is well marked.
pub fn unmarked_is_well_marked()
    ensures { UnmarkedIsWellMarked }
{}

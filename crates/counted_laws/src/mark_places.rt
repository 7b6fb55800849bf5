//! Marks that stand in the place of releases, and the law that code with such marks is well counted and prompt where it was without them.

ghost use Rattle.counted_laws.specs.mark_places.Statements.{MarkedIsCounted, MarkedIsPrompt, MarkedIsTheCore};

/// Law: where loops are marked in the place of releases, code stays well counted and prompt, and its core stays.
pub fn marks_keep_counts()
    ensures counted { MarkedIsCounted }
    ensures prompt { MarkedIsPrompt }
    ensures same { MarkedIsTheCore }
{}

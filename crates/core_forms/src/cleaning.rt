//! Laws: checks that cannot fail are copies, uses of copies are uses of their sources, and unused bindings go that are known to have a value.

ghost use Rattle.core_forms.specs.cleaning.Checks.{simplified_core};
ghost use Rattle.core_forms.specs.cleaning.Copies.{forwarded_core};
ghost use Rattle.core_forms.specs.cleaning.Laws.{StaysWellFormed, KeepsTheOutcome, SimplifiedHasNoOtherLiteral};
ghost use Rattle.core_forms.specs.cleaning.Unused.{swept_core};

/// Law: literal variables may be bound by constants, and checks that cannot fail may be copies.
pub fn checks_become_copies()
    ensures well { StaysWellFormed simplified_core }
    ensures outcome { KeepsTheOutcome simplified_core }
    ensures settled { SimplifiedHasNoOtherLiteral }
{}

/// Law: sources may be used in the place of copies.
pub fn sources_stand_for_copies()
    ensures well { StaysWellFormed forwarded_core }
    ensures outcome { KeepsTheOutcome forwarded_core }
{}

/// Law: bindings may go that are not used and whose right side is known to have a value.
pub fn unused_bindings_go()
    ensures well { StaysWellFormed swept_core }
    ensures outcome { KeepsTheOutcome swept_core }
{}

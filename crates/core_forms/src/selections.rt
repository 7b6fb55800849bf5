//! Law: selections by scalars are selections by vectors of one number.

ghost use Rattle.core_forms.specs.cleaning.Laws.{StaysWellFormed, KeepsTheOutcome};
ghost use Rattle.core_forms.specs.selections.Vectors.{vectored_core};

/// Law: the selections of a core by scalars that are not literal may be selections by vectors of one number, which are bound before them.
pub fn scalars_become_vectors()
    ensures well { StaysWellFormed vectored_core }
    ensures outcome { KeepsTheOutcome vectored_core }
{}

//! Laws of phases whose result is written over the array of a marked variable.

ghost use Rattle.phase_loop_laws.specs.over_phases.Statements.{PhasesEndOver};

/// Law: in well-counted code, a marked loop of scalar cells that reach no mark, and read of the marked variable's array their own element alone, ends with
/// what workers make of the array as it was before, written over it.
pub fn phases_end_over()
    ensures { PhasesEndOver }
{}

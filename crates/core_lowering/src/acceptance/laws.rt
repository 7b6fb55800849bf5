//! Laws of accepted programs.

ghost use Rattle.std.specs.Prelude.{◌<◌, ◌^◌, length};
ghost use Rattle.sac_ast.specs.Tree.{ProgramTree};
ghost use Rattle.core_ir.specs.WellFormed.{IsWellFormed};
ghost use Rattle.check_rules.specs.Accepted.{IsAccepted};
ghost use Rattle.core_lowering.specs.Programs.{IsDefiniteProgram, HasOutcomeOf, lowered_program};
ghost use Rattle.core_lowering.specs.Standing.{IsStanding};
ghost use Rattle.core_lowering.specs.Typed.{AreTypedFunctions};
ghost use Rattle.core_lowering.specs.acceptance.Formed.{ProgramFormed};
ghost use Rattle.core_lowering.specs.acceptance.Stands.{MainStands};

/// Law: in an accepted program of the form that the grammar gives, each use is of a variable that is bound on every path to it, each call has as
/// many targets as results, and there is a `main`.
pub fn accepted_definite()
    ensures { (p : ProgramTree) → ProgramFormed p → IsAccepted p → IsDefiniteProgram p }
{}

/// Law: the phrases of an accepted program of the form that the grammar gives have the bases that the core asks for: the bases that acceptance finds
/// are those of the list of all bindings.
pub fn accepted_typed()
    ensures { (p : ProgramTree) → ProgramFormed p → IsAccepted p → AreTypedFunctions p.functions p.functions }
{}

/// Law: the core of an accepted program has a `main`, which is not inline.
pub fn accepted_main()
    ensures { (p : ProgramTree) → IsAccepted p → MainStands (lowered_program p) }
{}

/// Law: the functions of an accepted program stand together as the core asks, where there are fewer than 2^32: called names have instances, inline
/// functions call inline functions that stand before them, and instances of a name may share it.
pub fn accepted_standing()
    ensures { (p : ProgramTree) → length p.functions < 2 ^ 32 → IsAccepted p → IsStanding p }
{}

/// Law: the core of an accepted program of the form that the grammar gives is well formed, where there are fewer than 2^32 functions, and has the
/// program's outcome on all arguments and under all limits.
pub fn accepted_core()
    ensures well_formed { (p : ProgramTree) → ProgramFormed p → IsAccepted p → length p.functions < 2 ^ 32 → IsWellFormed (lowered_program p) }
    ensures outcome { (p : ProgramTree) → ProgramFormed p → IsAccepted p → HasOutcomeOf p (lowered_program p) }
{}

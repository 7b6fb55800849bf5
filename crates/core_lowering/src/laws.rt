//! Laws of the lowering of sources to the core.

ghost use Rattle.std.specs.Prelude.{◌≡◌, ◌++◌, List, All};
ghost use Rattle.sac_base.specs.Arrays.{ArrayValue};
ghost use Rattle.sac_base.specs.declared.name.Name.{Name};
ghost use Rattle.sac_ast.specs.Tree.{FunctionTree, ProgramTree};
ghost use Rattle.core_ir.specs.Binders.{bound_in};
ghost use Rattle.core_ir.specs.Outcome.{param_vars};
ghost use Rattle.core_ir.specs.Scopes.{Scoped};
ghost use Rattle.core_ir.specs.WellFormed.{Distinct, IsFunction, IsWellFormed};
ghost use Rattle.core_lowering.specs.Programs.{IsDefiniteProgram, HasOutcomeOf, TakesTheSameInstances, lowered_function, lowered_program};
ghost use Rattle.core_lowering.specs.Typed.{AreTypedFunctions};
ghost use Rattle.core_lowering.specs.Standing.{IsStanding};

/// Law: the core of a program has the program's outcome on all arguments and under all limits, faults and their sites included, where each variable
/// that is used is bound on every path to its use and each call has as many targets as results.
pub fn lowered_outcome()
    ensures { (p : ProgramTree) → IsDefiniteProgram p → HasOutcomeOf p (lowered_program p) }
{}

/// Law: a call takes the same instance in the core as in the program.
pub fn lowered_instances()
    ensures { (p : ProgramTree) (name : Name) (args : List ArrayValue) → TakesTheSameInstances p name args }
{}

/// Law: in what a function becomes, each use is of a variable in scope, no binder hides one, and each variable is bound once.
pub fn lowered_scopes()
    ensures scoped { (fs : List FunctionTree) (f : FunctionTree) → Scoped (param_vars (lowered_function fs f)) (lowered_function fs f).body }
    ensures once { (fs : List FunctionTree) (f : FunctionTree) → Distinct (param_vars (lowered_function fs f) ++ bound_in (lowered_function fs f).body) }
{}

/// Law: where the phrases of a program have the bases that are asked for, each function of its core is well formed: variables are bound once, used
/// where they are in scope, and have agreeing bases.
pub fn lowered_functions()
    ensures { (p : ProgramTree) → IsDefiniteProgram p → AreTypedFunctions p.functions p.functions
        → All (IsFunction (lowered_program p)) (lowered_program p).functions }
{}

/// Law: the core of a program is well formed, where besides its functions stand together as the core asks: called names have instances, inline
/// functions call inline functions that stand before them, and instances of a name may share it.
pub fn lowered_core()
    ensures { (p : ProgramTree) → IsDefiniteProgram p → AreTypedFunctions p.functions p.functions → IsStanding p → IsWellFormed (lowered_program p) }
{}

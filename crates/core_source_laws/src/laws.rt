//! Laws of programs that are read from a source.

ghost use Rattle.std.specs.Prelude.{◌≤◌, ℕ, List, length};
ghost use Rattle.sac_ast.specs.Texts.{Lexeme};
ghost use Rattle.sac_ast.specs.Tree.{ProgramTree};
ghost use Rattle.sac_ast.specs.Grammar.{IsProgram};
ghost use Rattle.core_ir.specs.WellFormed.{IsWellFormed};
ghost use Rattle.core_lowering.specs.Programs.{HasOutcomeOf, lowered_program};
ghost use Rattle.core_lowering.specs.acceptance.Formed.{ProgramFormed};
ghost use Rattle.core_lowering.specs.acceptance.Stands.{MainStands};
ghost use Rattle.sac_due.specs.Source.{IsTokensOf, IsProgramOf};

/// Law: the tree that the tokens of a source have in the grammar is of the form that laws of accepted programs ask for: its numbers fit 32 bits,
/// each operator and built-in function has as many operands as it takes, folds have an operator that folds, and index lists have a name. It has at
/// most 200,000 functions.
pub fn read_programs()
    ensures formed { (source : List ℕ) (tokens : List Lexeme) (p : ProgramTree) → IsTokensOf source tokens → IsProgram tokens p → ProgramFormed p }
    ensures few { (source : List ℕ) (tokens : List Lexeme) (p : ProgramTree) → IsTokensOf source tokens → IsProgram tokens p → length p.functions ≤ 200000 }
{}

/// Law: where a source is an accepted program, the program's core is well formed, has the program's outcome on all arguments and under all limits,
/// and has a `main` that is not inline.
pub fn compiled_core()
    ensures well_formed { (source : List ℕ) (p : ProgramTree) → IsProgramOf source p → IsWellFormed (lowered_program p) }
    ensures outcome { (source : List ℕ) (p : ProgramTree) → IsProgramOf source p → HasOutcomeOf p (lowered_program p) }
    ensures main { (source : List ℕ) (p : ProgramTree) → IsProgramOf source p → MainStands (lowered_program p) }
{}

//! Laws of the lowering as it goes.

ghost use Rattle.std.specs.Prelude.{◌≡◌, ℕ, List, Option};
ghost use Rattle.sac_base.specs.declared.base.Base.{Base};
ghost use Rattle.sac_base.specs.declared.name.Name.{Name};
ghost use Rattle.sac_base.specs.declared.site.Site.{Site};
ghost use Rattle.sac_ast.specs.Tree.{Expr, Exprs, MaybeExpr, BoundTree, Gen, Gens, OperationTree, Stmt, Block, FunctionTree};
ghost use Rattle.sac_ast.specs.Bases.{base_in};
ghost use Rattle.core_lowering.specs.Lowering.{Scope, var_in, starts, lowered, lowered_all, lowered_maybe, lowered_bound, lowered_gen, lowered_gens};
ghost use Rattle.core_lowering.specs.Lowering.{lowered_operation, lowered_stmt, lowered_block};
ghost use Rattle.core_lowering.specs.Programs.{group_of, lowered_function, name_base};
ghost use Rattle.core_lowering.specs.steps.Building.{Built, make_starts, make, make_all, make_maybe, make_bound, make_gen, make_gens, make_operation};
ghost use Rattle.core_lowering.specs.steps.Building.{make_stmt, make_block};
ghost use Rattle.core_lowering.specs.steps.Behind.{made_of, list_of, option_of, scope_of, gen_of, gens_of, operation_of};
ghost use Rattle.core_lowering.specs.steps.Functions.{function_made};

/// Law: an expression's bindings are added behind those that are there, and its result and the next number are those of the lowering.
pub fn made_expressions()
    ensures { (group_of : Name → ℕ) (base_of : Expr → Option Base) (base_of_name : Name → Base) (e : Expr) (scope : Scope) (s : Built)
        → make group_of base_of base_of_name e (var_in scope) s ≡ made_of s (lowered group_of base_of base_of_name e scope s.next) }
{}

/// Law: the same of expressions one after another.
pub fn made_lists()
    ensures { (group_of : Name → ℕ) (base_of : Expr → Option Base) (base_of_name : Name → Base) (es : Exprs) (scope : Scope) (s : Built)
        → make_all group_of base_of base_of_name es (var_in scope) s ≡ list_of s (lowered_all group_of base_of base_of_name es scope s.next) }
{}

/// Law: the same of the bounds, steps and widths of generators, of each generator, whose block keeps its own bindings, and of a list of them.
pub fn made_generators()
    ensures bounds { (group_of : Name → ℕ) (base_of : Expr → Option Base) (base_of_name : Name → Base) (e : BoundTree) (scope : Scope) (s : Built)
        → make_bound group_of base_of base_of_name e (var_in scope) s ≡ option_of s (lowered_bound group_of base_of base_of_name e scope s.next) }
    ensures steps { (group_of : Name → ℕ) (base_of : Expr → Option Base) (base_of_name : Name → Base) (e : MaybeExpr) (scope : Scope) (s : Built)
        → make_maybe group_of base_of base_of_name e (var_in scope) s ≡ option_of s (lowered_maybe group_of base_of base_of_name e scope s.next) }
    ensures one { (group_of : Name → ℕ) (base_of : Expr → Option Base) (base_of_name : Name → Base) (g : Gen) (scope : Scope) (s : Built)
        → make_gen group_of base_of base_of_name g (var_in scope) s ≡ gen_of s (lowered_gen group_of base_of base_of_name g scope s.next) }
    ensures several { (group_of : Name → ℕ) (base_of : Expr → Option Base) (base_of_name : Name → Base) (gs : Gens) (scope : Scope) (s : Built)
        → make_gens group_of base_of base_of_name gs (var_in scope) s ≡ gens_of s (lowered_gens group_of base_of base_of_name gs scope s.next) }
{}

/// Law: the same of the operation of a with-loop.
pub fn made_operations()
    ensures { (group_of : Name → ℕ) (base_of : Expr → Option Base) (base_of_name : Name → Base) (op : OperationTree) (base : Base) (scope : Scope)
        (s : Built) → make_operation group_of base_of base_of_name op base (var_in scope) s
        ≡ operation_of s (lowered_operation group_of base_of base_of_name op base scope s.next) }
{}

/// Law: the same of the first values of what a loop carries.
pub fn made_starts()
    ensures { (base_of_name : Name → Base) (site : Site) (xs : List Name) (scope : Scope) (s : Built)
        → make_starts base_of_name site xs (var_in scope) s ≡ list_of s (starts base_of_name site xs scope s.next) }
{}

/// Law: the same of statements and blocks, whose names have the variables of the lowering's scopes.
pub fn made_blocks()
    ensures one { (group_of : Name → ℕ) (base_of : Expr → Option Base) (base_of_name : Name → Base) (st : Stmt) (scope : Scope) (s : Built)
        → make_stmt group_of base_of base_of_name st (var_in scope) s ≡ scope_of s (lowered_stmt group_of base_of base_of_name st scope s.next) }
    ensures several { (group_of : Name → ℕ) (base_of : Expr → Option Base) (base_of_name : Name → Base) (ss : Block) (scope : Scope) (s : Built)
        → make_block group_of base_of base_of_name ss (var_in scope) s ≡ scope_of s (lowered_block group_of base_of base_of_name ss scope s.next) }
{}

/// Law: a function's core is what its parameters, then its block and then its values make, with no bindings and no numbers taken before them.
pub fn made_functions()
    ensures { (fs : List FunctionTree) (f : FunctionTree) → function_made (group_of fs) (base_in fs f) (name_base fs f) f ≡ lowered_function fs f }
{}

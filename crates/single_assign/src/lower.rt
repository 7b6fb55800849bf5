//! Expressions and statements as bindings of the core.

ghost use Rattle.std.specs.Prelude.{◌≡◌, IfOk, OnOk, map};
ghost use Rattle.sac_base.specs.Arrays.{scalar};
ghost use Rattle.sac_ast.specs.Tree;
ghost use Rattle.sac_ast.specs.View.{expr, exprs, maybe, bound, index_view, generator, generators, operation, stmt, block};
ghost use Rattle.core_ir.specs.Terms.{Plain, PlainTerm, RightTerm, gens_of};
ghost use Rattle.core_ir.specs.View.{block_term, gen_term, right_term};
ghost use Rattle.core_lowering.specs.Lowering.{built_in as built_in_value};
ghost use Rattle.core_lowering.specs.steps.Building.{block_giving, block_of, bound_at, first_var, given_bound, index_declared, nested, start_at, use_at};
ghost use Rattle.core_scopes.specs.Looks.{look, texts};
ghost use Rattle.core_scopes.specs.Built.{built, made, made_names};
ghost use Rattle.single_assign.specs.Views.{made_list, made_option, made_scope, made_block, made_gen, made_gens, made_branch};
ghost use Rattle.single_assign.specs.Turns.{do_carried_in, joined_from, made_carried, while_carried};
ghost use Rattle.single_assign.specs.Views.{made_operation, make_in, make_all_in, make_maybe_in, make_bound_in, make_gen_in, make_gens_in};
ghost use Rattle.single_assign.specs.Views.{make_operation_in, make_stmt_in, make_block_in, make_inside_in, make_cell_in, make_default_in};
ghost use Rattle.single_assign.specs.Views.{make_starts_in, make_if_in, make_turn_in, make_while_in, make_do_in, made_given, name_base_in};

use crate::context::Context;
use core_ir::{Block, CoreGen, CoreOp, Right, Var, WithLoop};
use core_scopes::{
    Builder, Scope, known, known_in_both, names_of, once_bound, once_bound_in_either,
};
use sac_ast::{Bound, Builtin, Expression, Generator, Index, Operation, Statement, Target};
use sac_base::{Array, Base, Cell, FaultKind, Memory, Name, Site};

/// The operation of a with-loop, and its site.
#[derive(Drop)]
pub struct Making {
    pub op: CoreOp,
    pub site: Site,
}

/// The names that a conditional or a loop gives new variables, and the right side that they are bound to.
#[derive(Drop)]
pub struct Given<'n> {
    pub names: Vec<&'n str>,
    pub right: Right,
}

/// What the statements of a branch or of a turn come to: the variables of names behind them, and their bindings.
#[derive(Drop)]
pub struct Branch<'s> {
    pub scope: Scope<'s>,
    pub bindings: Builder,
}

/// The names that a loop carries, their first values, and the parameters that they are in the loop.
#[derive(Drop)]
pub struct Carried<'n> {
    pub names: Vec<&'n str>,
    pub start: Vec<Var>,
    pub params: Vec<Var>,
}

fn constant(
    cx: &Context<'_>,
    base: Base,
    n: Cell,
    site: Site,
    out: &mut Builder,
) -> Result<Var, Memory>
    ensures { IfOk result (λ x. made (built out.new) x ≡ bound_at (built out.old) site (Plain (PlainTerm.Const (scalar base n)))) }
{
    let array = Array::scalar(cx.alloc, base, n)?;
    out.bind(cx.alloc, site, Right::Const(array))
}

// The variable of a name. One that has none is 0.
fn used(
    cx: &Context<'_>,
    name: &Name,
    site: Site,
    scope: &Scope<'_>,
    out: &mut Builder,
) -> Result<Var, Memory>
    ensures { IfOk result (λ x. made (built out.new) x ≡ use_at (built out.old) site (look scope.now name.now)) }
{
    match scope.find(name.as_str()) {
        Some(var) => Ok(var),
        None => constant(cx, Base::Int, 0, site, out),
    }
}

fn built_in(builtin: Builtin, vars: &[Var]) -> Right
    ensures { right_term result ≡ Plain (built_in_value builtin vars.now) }
{
    match builtin {
        Builtin::Dim => match vars {
            [x, ..] => Right::Dim(*x),
            _ => Right::Always(FaultKind::F4),
        },
        Builtin::Shape => match vars {
            [x, ..] => Right::ShapeOf(*x),
            _ => Right::Always(FaultKind::F4),
        },
        Builtin::Reshape => match vars {
            [x, y, ..] => Right::Reshape(*x, *y),
            _ => Right::Always(FaultKind::F4),
        },
    }
}

fn with_loop(gens: Vec<CoreGen>, op: CoreOp) -> Right
    ensures { right_term result ≡ RightTerm.With op (gens_of (map gen_term gens.items)) }
{
    Right::With(WithLoop { gens, op })
}

// The block of what was made inside, which gives a variable.
fn close(cx: &Context<'_>, inner: Builder, var: Var, out: &mut Builder) -> Result<Block, Memory>
    ensures { IfOk result (λ b. made_block (built out.new) (block_term b) ≡ block_of (built out.old) (made (built inner) var)) }
{
    let results = Vec::from_slice(cx.alloc, &[var])?;
    out.resume(&inner);
    Ok(inner.finish(results))
}

// The block of a branch or of a turn, which gives the variables of names.
fn close_branch(
    branch: Box<Branch<'_>>,
    names: &[&str],
    cx: &Context<'_>,
    out: &mut Builder,
) -> Result<Block, Memory>
    ensures { IfOk result (λ b. made_block (built out.new) (block_term b) ≡ block_giving (texts names.now) (built out.old) (made_branch branch.entry.value)) }
{
    let results = branch.scope.vars(cx.alloc, names)?;
    let Branch { bindings, .. } = Box::into_inner(branch);
    out.resume(&bindings);
    Ok(bindings.finish(results))
}

/// Binds what an expression needs, and tells the variable that has its value.
#[cycle(lowering)]
pub fn lower(
    e: &Expression,
    cx: &Context<'_>,
    scope: &Scope<'_>,
    out: &mut Builder,
) -> Result<Var, Memory>
    ensures { IfOk result (λ x. made (built out.new) x ≡ make_in cx.now (expr e.now) (look scope.now) (built out.old)) }
{
    match e {
        Expression::Number(n, site) => constant(cx, Base::Int, *n, *site, out),
        Expression::Truth(b, site) => constant(cx, Base::Bool, i32::from(*b), *site, out),
        Expression::Variable(name, site) => used(cx, name, *site, scope, out),
        Expression::Literal(es, site) => {
            let parts = lower_all(es, cx, scope, out)?;
            out.bind(cx.alloc, *site, Right::Literal(parts))
        }
        Expression::Unary(op, e, site) => {
            let x = lower(e, cx, scope, out)?;
            out.bind(cx.alloc, *site, Right::Unary(*op, x))
        }
        Expression::Binary(op, left, right, site) => {
            let x = lower(left, cx, scope, out)?;
            let y = lower(right, cx, scope, out)?;
            out.bind(cx.alloc, *site, Right::Binary(*op, x, y))
        }
        Expression::Choice(c, left, right, site) => {
            let cond = lower(c, cx, scope, out)?;
            let yes = lower_inside(left, cx, scope, out)?;
            let no = lower_inside(right, cx, scope, out)?;
            out.bind(cx.alloc, *site, Right::If { cond, yes, no })
        }
        Expression::Select(array, index, site) => {
            let x = lower(array, cx, scope, out)?;
            let y = lower(index, cx, scope, out)?;
            out.bind(cx.alloc, *site, Right::Select(x, y))
        }
        Expression::Call(name, es, site) => {
            let args = lower_all(es, cx, scope, out)?;
            let group = cx.group_of(name)?;
            out.bind(cx.alloc, *site, Right::Call { group, args })
        }
        Expression::Builtin(builtin, es, site) => {
            let args = lower_all(es, cx, scope, out)?;
            out.bind(cx.alloc, *site, built_in(*builtin, &args))
        }
        Expression::With(gs, op, _) => {
            let gens = lower_generators(gs, cx, scope, out)?;
            let base = cx.default_base(gs)?;
            let making = lower_operation(op, base, cx, scope, out)?;
            out.bind(cx.alloc, making.site, with_loop(gens, making.op))
        }
    }
}

/// The variables of expressions, from left to right.
#[cycle(lowering)]
pub fn lower_all(
    es: &[Expression],
    cx: &Context<'_>,
    scope: &Scope<'_>,
    out: &mut Builder,
) -> Result<Vec<Var>, Memory>
    ensures { IfOk result (λ v. made_list (built out.new) v.items ≡ make_all_in cx.now (exprs es.now) (look scope.now) (built out.old)) }
{
    let mut vars = Vec::new(cx.alloc);
    for e in es {
        let x = lower(e, cx, scope, out)?;
        vars.push(x)?;
    }
    Ok(vars)
}

// The block of an expression.
#[cycle(lowering)]
fn lower_inside(
    e: &Expression,
    cx: &Context<'_>,
    scope: &Scope<'_>,
    out: &mut Builder,
) -> Result<Block, Memory>
    ensures { IfOk result (λ b. made_block (built out.new) (block_term b) ≡ make_inside_in cx.now (expr e.now) (look scope.now) (built out.old)) }
{
    let mut inner = out.nested(cx.alloc);
    let x = lower(e, cx, scope, &mut inner)?;
    close(cx, inner, x, out)
}

#[cycle(lowering)]
fn lower_maybe(
    e: &Option<Expression>,
    cx: &Context<'_>,
    scope: &Scope<'_>,
    out: &mut Builder,
) -> Result<Option<Var>, Memory>
    ensures { IfOk result (λ x. made_option (built out.new) x ≡ make_maybe_in cx.now (maybe e.now) (look scope.now) (built out.old)) }
{
    match e {
        None => Ok(None),
        Some(e) => {
            let x = lower(e, cx, scope, out)?;
            Ok(Some(x))
        }
    }
}

#[cycle(lowering)]
fn lower_bound(
    b: &Bound,
    cx: &Context<'_>,
    scope: &Scope<'_>,
    out: &mut Builder,
) -> Result<Option<Var>, Memory>
    ensures { IfOk result (λ x. made_option (built out.new) x ≡ make_bound_in cx.now (bound b.now) (look scope.now) (built out.old)) }
{
    match b {
        Bound::Dot(_) => Ok(None),
        Bound::Given(e) => {
            let x = lower(e, cx, scope, out)?;
            Ok(Some(x))
        }
    }
}

// The names of an index as new variables: those of its components, where it has names for them.
fn index_names(
    index: &Index,
    var: Var,
    cx: &Context<'_>,
    scope: &mut Scope<'_>,
    out: &mut Builder,
) -> Result<Vec<Var>, Memory>
    ensures { IfOk result (λ v. made_names (built out.new) v.items (look scope.new)
        ≡ index_declared (index_view index.now) var (look scope.old) (built out.old)) }
{
    match index {
        Index::Named(target) => {
            scope.bind(cx.alloc, target.name.as_str(), var)?;
            Ok(Vec::new(cx.alloc))
        }
        Index::Parts(targets) => {
            let names = names_of(cx.alloc, targets)?;
            scope.declare(cx.alloc, &names, out)
        }
    }
}

#[cycle(lowering)]
fn lower_generator(
    g: &Generator,
    cx: &Context<'_>,
    scope: &Scope<'_>,
    out: &mut Builder,
) -> Result<CoreGen, Memory>
    ensures { IfOk result (λ r. made_gen (built out.new) (gen_term r) ≡ make_gen_in cx.now (generator g.now) (look scope.now) (built out.old)) }
{
    let lower = lower_bound(&g.lower, cx, scope, out)?;
    let upper = lower_bound(&g.upper, cx, scope, out)?;
    let step = lower_maybe(&g.step, cx, scope, out)?;
    let width = lower_maybe(&g.width, cx, scope, out)?;
    let index = out.fresh()?;
    let mut inside = (&*scope).inside(cx.alloc);
    let names = index_names(&g.index, index, cx, &mut inside, out)?;
    let body = lower_cell(g, cx, &mut inside, out)?;
    Ok(CoreGen {
        lower,
        lower_closed: g.lower_closed,
        upper,
        upper_closed: g.upper_closed,
        step,
        width,
        index,
        names,
        body,
        site: g.site,
    })
}

// The block of a generator, which gives its cell.
#[cycle(lowering)]
fn lower_cell(
    g: &Generator,
    cx: &Context<'_>,
    scope: &mut Scope<'_>,
    out: &mut Builder,
) -> Result<Block, Memory>
    ensures { IfOk result (λ b. made_block (built out.new) (block_term b)
        ≡ make_cell_in cx.now (block g.now.body.items) (expr g.now.cell) (look scope.old) (built out.old)) }
{
    let mut inner = out.nested(cx.alloc);
    lower_block(&g.body, cx, scope, &mut inner)?;
    let x = lower(&g.cell, cx, scope, &mut inner)?;
    close(cx, inner, x, out)
}

#[cycle(lowering)]
fn lower_generators(
    gs: &[Generator],
    cx: &Context<'_>,
    scope: &Scope<'_>,
    out: &mut Builder,
) -> Result<Vec<CoreGen>, Memory>
    ensures { IfOk result (λ v. made_gens (built out.new) v.items ≡ make_gens_in cx.now (generators gs.now) (look scope.now) (built out.old)) }
{
    let mut gens = Vec::new(cx.alloc);
    for g in gs {
        let generator = lower_generator(g, cx, scope, out)?;
        gens.push(generator)?;
    }
    Ok(gens)
}

// The default of a genarray; one that is left out is zero of a base.
#[cycle(lowering)]
fn lower_default(
    e: &Option<Expression>,
    base: Base,
    site: Site,
    cx: &Context<'_>,
    scope: &Scope<'_>,
    out: &mut Builder,
) -> Result<Var, Memory>
    ensures { IfOk result (λ x. made (built out.new) x ≡ make_default_in cx.now (maybe e.now) base site (look scope.now) (built out.old)) }
{
    match e {
        None => constant(cx, base, 0, site, out),
        Some(e) => lower(e, cx, scope, out),
    }
}

#[cycle(lowering)]
fn lower_operation(
    op: &Operation,
    base: Base,
    cx: &Context<'_>,
    scope: &Scope<'_>,
    out: &mut Builder,
) -> Result<Making, Memory>
    ensures { IfOk result (λ m. made_operation (built out.new) m ≡ make_operation_in cx.now (operation op.now) base (look scope.now) (built out.old)) }
{
    match op {
        Operation::Genarray {
            shape,
            default,
            site,
        } => {
            let site = *site;
            let shape = lower(shape, cx, scope, out)?;
            let default = lower_default(default, base, site, cx, scope, out)?;
            let op = CoreOp::Genarray { shape, default };
            Ok(Making { op, site })
        }
        Operation::Modarray { array, site } => {
            let site = *site;
            let array = lower(array, cx, scope, out)?;
            let op = CoreOp::Modarray { array };
            Ok(Making { op, site })
        }
        Operation::Fold { op, neutral, site } => {
            let site = *site;
            let neutral = lower(neutral, cx, scope, out)?;
            let op = CoreOp::Fold { op: *op, neutral };
            Ok(Making { op, site })
        }
    }
}

#[cycle(lowering)]
fn lower_statement(
    s: &Statement,
    cx: &Context<'_>,
    scope: &mut Scope<'_>,
    out: &mut Builder,
) -> Result<(), Memory>
    ensures { OnOk result (made_scope (built out.new) (look scope.new) ≡ make_stmt_in cx.now (stmt s.now) (look scope.old) (built out.old)) }
{
    match s {
        Statement::Assign { targets, value } => lower_assign(value, targets, cx, scope, out),
        Statement::Replace {
            target,
            bracket,
            index,
            value,
        } => {
            let i = lower(index, cx, scope, out)?;
            let v = lower(value, cx, scope, out)?;
            let a = used(cx, &target.name, *bracket, scope, out)?;
            let x = out.bind(cx.alloc, *bracket, Right::Replace(a, i, v))?;
            scope.bind(cx.alloc, target.name.as_str(), x)
        }
        Statement::If {
            cond,
            yes,
            no,
            site,
        } => {
            let site = *site;
            let given = lower_if(yes, no, cond, cx, scope, out)?;
            bind_given(given, site, cx, scope, out)
        }
        Statement::While { cond, body, site } => {
            let site = *site;
            let given = lower_while(body, cond, site, cx, scope, out)?;
            bind_given(given, site, cx, scope, out)
        }
        Statement::Do {
            body,
            cond,
            site,
            test,
        } => {
            let site = *site;
            let given = lower_do(body, cond, site, *test, cx, scope, out)?;
            bind_given(given, site, cx, scope, out)
        }
    }
}

#[cycle(lowering)]
fn lower_assign(
    value: &Expression,
    targets: &[Target],
    cx: &Context<'_>,
    scope: &mut Scope<'_>,
    out: &mut Builder,
) -> Result<(), Memory>
    ensures { OnOk result (made_scope (built out.new) (look scope.new)
        ≡ make_stmt_in cx.now (Tree.assign targets.now (expr value.now)) (look scope.old) (built out.old)) }
{
    match value {
        Expression::Call(name, es, site) => {
            let args = lower_all(es, cx, scope, out)?;
            let group = cx.group_of(name)?;
            let names = names_of(cx.alloc, targets)?;
            let vars = scope.declare(cx.alloc, &names, out)?;
            out.push(vars, *site, Right::Call { group, args })
        }
        _ => {
            let x = lower(value, cx, scope, out)?;
            bind_first(targets, x, cx, scope)
        }
    }
}

// A right side that is no call binds the first target.
fn bind_first(
    targets: &[Target],
    var: Var,
    cx: &Context<'_>,
    scope: &mut Scope<'_>,
) -> Result<(), Memory>
    ensures { OnOk result (look scope.new ≡ first_var targets.now var (look scope.old)) }
{
    match targets.first() {
        Some(target) => scope.bind(cx.alloc, target.name.as_str(), var),
        None => Ok(()),
    }
}

// Binds the names that a conditional or a loop gives to new variables.
fn bind_given(
    given: Given<'_>,
    site: Site,
    cx: &Context<'_>,
    scope: &mut Scope<'_>,
    out: &mut Builder,
) -> Result<(), Memory>
    ensures { OnOk result (made_scope (built out.new) (look scope.new) ≡ given_bound site (look scope.old) (made_given (built out.old) given.entry)) }
{
    match scope.declare(cx.alloc, &given.names, out) {
        Ok(targets) => out.push(targets, site, given.right),
        Err(Memory) => {
            // The call takes the right side apart, where an early return would do so step by step.
            drop(given);
            Err(Memory)
        }
    }
}

#[cycle(lowering)]
fn lower_if<'n>(
    yes: &'n [Statement],
    no: &'n [Statement],
    cond: &'n Expression,
    cx: &Context<'_>,
    scope: &Scope<'_>,
    out: &mut Builder,
) -> Result<Given<'n>, Memory>
    ensures { IfOk result (λ g. made_given (built out.new) g
        ≡ make_if_in cx.now (expr cond.now) (block yes.now) (block no.now) (look scope.now) (built out.old)) }
{
    let cond = lower(cond, cx, scope, out)?;
    let first = lower_branch(yes, cx, &*scope, out)?;
    let second = lower_branch(no, cx, &*scope, &first.bindings)?;
    joined(yes, no, cond, first, second, cx, out)
}

// The statements of a branch or of a turn, with variables from those of a builder on. What they come to stands in a box, whose drop is one call.
#[cycle(lowering)]
fn lower_branch<'s>(
    ss: &[Statement],
    cx: &Context<'_>,
    scope: &'s Scope<'s>,
    before: &Builder,
) -> Result<Box<Branch<'s>>, Memory>
    ensures { IfOk result (λ b. made_branch b.value ≡ make_block_in cx.now (block ss.now) (look scope.now) (nested (built before.now))) }
{
    let mut inside = scope.inside(cx.alloc);
    let mut inner = before.nested(cx.alloc);
    lower_block(ss, cx, &mut inside, &mut inner)?;
    let branch = Branch {
        scope: inside,
        bindings: inner,
    };
    Ok(Box::new(cx.alloc, branch)?)
}

// What two branches give: the names that have a variable behind both.
fn joined<'n>(
    yes: &'n [Statement],
    no: &'n [Statement],
    cond: Var,
    first: Box<Branch<'_>>,
    second: Box<Branch<'_>>,
    cx: &Context<'_>,
    out: &mut Builder,
) -> Result<Given<'n>, Memory>
    ensures { IfOk result (λ g. made_given (built out.new) g
        ≡ joined_from (built out.old) cond (block yes.now) (block no.now) (made_branch first.entry.value) (made_branch second.entry.value)) }
{
    let bound = once_bound_in_either(cx.alloc, yes, no)?;
    let names = known_in_both(cx.alloc, &bound, &first.scope, &second.scope)?;
    let yes = close_branch(first, &names, cx, out)?;
    let no = close_branch(second, &names, cx, out)?;
    Ok(Given {
        names,
        right: Right::If { cond, yes, no },
    })
}

// The block of a turn of a loop, which gives the variables of names.
#[cycle(lowering)]
fn lower_turn(
    ss: &[Statement],
    names: &[&str],
    cx: &Context<'_>,
    scope: &Scope<'_>,
    out: &mut Builder,
) -> Result<Block, Memory>
    ensures { IfOk result (λ b. made_block (built out.new) (block_term b)
        ≡ make_turn_in cx.now (texts names.now) (block ss.now) (look scope.now) (built out.old)) }
{
    let turn = lower_branch(ss, cx, &*scope, out)?;
    close_branch(turn, names, cx, out)
}

#[cycle(lowering)]
fn lower_while<'n>(
    body: &'n [Statement],
    cond: &'n Expression,
    test_site: Site,
    cx: &Context<'_>,
    scope: &Scope<'_>,
    out: &mut Builder,
) -> Result<Given<'n>, Memory>
    ensures { IfOk result (λ g. made_given (built out.new) g
        ≡ make_while_in cx.now (expr cond.now) (block body.now) test_site (look scope.now) (built out.old)) }
{
    let mut inside = (&*scope).inside(cx.alloc);
    lower_while_in(body, cond, test_site, cx, &mut inside, out)
}

// A `while` in a scope of its own, which is its caller's, so that it is dropped in one place.
#[cycle(lowering)]
fn lower_while_in<'n>(
    body: &'n [Statement],
    cond: &'n Expression,
    test_site: Site,
    cx: &Context<'_>,
    scope: &mut Scope<'_>,
    out: &mut Builder,
) -> Result<Given<'n>, Memory>
    ensures { IfOk result (λ g. made_given (built out.new) g
        ≡ make_while_in cx.now (expr cond.now) (block body.now) test_site (look scope.old) (built out.old)) }
{
    let Carried {
        names,
        start,
        params,
    } = carried_by_while(body, cx, scope, out)?;
    let test = lower_inside(cond, cx, scope, out)?;
    let body = lower_turn(body, &names, cx, scope, out)?;
    let right = Right::Loop {
        first_body: false,
        start,
        params,
        test,
        body,
        test_site,
    };
    Ok(Given { names, right })
}

// What a `while` carries: the names that it binds and that have a variable in front of it.
fn carried_by_while<'n>(
    body: &'n [Statement],
    cx: &Context<'_>,
    scope: &mut Scope<'_>,
    out: &mut Builder,
) -> Result<Carried<'n>, Memory>
    ensures { IfOk result (λ c. made_carried (built out.new) c (look scope.new) ≡ while_carried (block body.now) (look scope.old) (built out.old)) }
{
    let bound = once_bound(cx.alloc, body)?;
    let names = known(cx.alloc, &bound, scope)?;
    let start = scope.vars(cx.alloc, &names)?;
    let params = scope.declare(cx.alloc, &names, out)?;
    Ok(Carried {
        names,
        start,
        params,
    })
}

// The first values of what a `do` carries: a name that has no variable has a value that is never read.
fn starts(
    names: &[&str],
    site: Site,
    cx: &Context<'_>,
    scope: &Scope<'_>,
    out: &mut Builder,
) -> Result<Vec<Var>, Memory>
    ensures { IfOk result (λ v. made_list (built out.new) v.items ≡ make_starts_in cx.now site (texts names.now) (look scope.now) (built out.old)) }
{
    let mut vars = Vec::new(cx.alloc);
    for name in names {
        let x = start(name, site, cx, scope, out)?;
        vars.push(x)?;
    }
    Ok(vars)
}

fn start(
    name: &str,
    site: Site,
    cx: &Context<'_>,
    scope: &Scope<'_>,
    out: &mut Builder,
) -> Result<Var, Memory>
    ensures { IfOk result (λ x. made (built out.new) x ≡ start_at (name_base_in cx.now name.now) (built out.old) site (look scope.now name.now)) }
{
    match scope.find(name) {
        Some(x) => Ok(x),
        None => constant(cx, cx.base_of_name(name), 0, site, out),
    }
}

#[cycle(lowering)]
fn lower_do<'n>(
    body: &'n [Statement],
    cond: &'n Expression,
    site: Site,
    test_site: Site,
    cx: &Context<'_>,
    scope: &Scope<'_>,
    out: &mut Builder,
) -> Result<Given<'n>, Memory>
    ensures { IfOk result (λ g. made_given (built out.new) g
        ≡ make_do_in cx.now (block body.now) (expr cond.now) site test_site (look scope.now) (built out.old)) }
{
    let mut inside = (&*scope).inside(cx.alloc);
    lower_do_in(body, cond, site, test_site, cx, &mut inside, out)
}

// A `do` in a scope of its own, which is its caller's, so that it is dropped in one place.
#[cycle(lowering)]
fn lower_do_in<'n>(
    body: &'n [Statement],
    cond: &'n Expression,
    site: Site,
    test_site: Site,
    cx: &Context<'_>,
    scope: &mut Scope<'_>,
    out: &mut Builder,
) -> Result<Given<'n>, Memory>
    ensures { IfOk result (λ g. made_given (built out.new) g
        ≡ make_do_in cx.now (block body.now) (expr cond.now) site test_site (look scope.old) (built out.old)) }
{
    let Carried {
        names,
        start,
        params,
    } = carried_by_do(body, site, cx, scope, out)?;
    let body = lower_turn(body, &names, cx, scope, out)?;
    let test = lower_inside(cond, cx, scope, out)?;
    let right = Right::Loop {
        first_body: true,
        start,
        params,
        test,
        body,
        test_site,
    };
    Ok(Given { names, right })
}

// What a `do` carries: all names that it binds.
fn carried_by_do<'n>(
    body: &'n [Statement],
    site: Site,
    cx: &Context<'_>,
    scope: &mut Scope<'_>,
    out: &mut Builder,
) -> Result<Carried<'n>, Memory>
    ensures { IfOk result (λ c. made_carried (built out.new) c (look scope.new) ≡ do_carried_in cx.now site (block body.now) (look scope.old) (built out.old)) }
{
    let names = once_bound(cx.alloc, body)?;
    let start = starts(&names, site, cx, scope, out)?;
    let params = scope.declare(cx.alloc, &names, out)?;
    Ok(Carried {
        names,
        start,
        params,
    })
}

/// Binds what the statements of a block need, one after another.
#[cycle(lowering)]
pub fn lower_block(
    ss: &[Statement],
    cx: &Context<'_>,
    scope: &mut Scope<'_>,
    out: &mut Builder,
) -> Result<(), Memory>
    ensures { OnOk result (made_scope (built out.new) (look scope.new) ≡ make_block_in cx.now (block ss.now) (look scope.old) (built out.old)) }
{
    for s in ss {
        lower_statement(s, cx, scope, out)?;
    }
    Ok(())
}

//! Expressions and statements.

ghost use Rattle.std.specs.Prelude.{◌≡◌, [], ◌∷◌, ◌++◌, OnOk, IfOk, ◌<◌, length, Vec, Ok, IfSome, IsTrue, fold};
ghost use Rattle.sac_base.specs.Arrays.{size};
ghost use Rattle.sac_ast.specs.Tree;
ghost use Rattle.sac_ast.specs.View;
ghost use Rattle.sac_ast.specs.View.{expr, exprs, stmt, block};
ghost use Rattle.source_meaning.specs.Environments.{env_of};
ghost use Rattle.value_meaning.specs.Evaluation.{meaning_in, meanings_in, statement_in, block_in, repeat_in, calls_in, run_chosen_in, function_in};
ghost use Rattle.value_meaning.specs.Evaluation.{cell_in, test_in};
ghost use Rattle.source_meaning.specs.Meaning.{call_with};
ghost use Rattle.sac_base.specs.Outcomes.{and_then};
ghost use Rattle.array_with_loops.specs.Cells.{IsArrayPlan, array_from};
ghost use Rattle.array_with_loops.specs.Plans.{operation_of, plan_of};
ghost use Rattle.array_ops.specs.Tells.{Tells, TellsItems, TellsEnv, TellsAs};
ghost use Rattle.sac_base.specs.WithLoops.{each, combined};
ghost use Rattle.source_meaning.specs.Meaning.{name_count as name_count_value};
ghost use Rattle.value_meaning.specs.WithSource.{bounds_in, bound_in, maybe_in, operation_in, held_in, checked_in, cells_in};

use array_ops::{binary_at, condition_at, literal_at, results_of, select_at, unary_of};
use array_with_loops::{
    Bounds, Evaluated, IndexVector, Plan, Range, add_cell, cell_size, combine, fits_form,
    fold_plan, genarray_plan, modarray_plan,
};
use sac_ast::{Bound, Expression, Function, Generator, Index, Operation, Statement, Target};
use sac_base::{Array, Base, FaultKind, Form, Memory, Name, Op, Site, Stop, fault};
use source_meaning::{
    Environment, assign, assign_all, assign_one, bind_index, bind_params, built_in_at,
    choose_instance, default_or_zero, first_result_of, lookup, replace_at, value_of,
};
use std::alloc::Global;

/// The function that runs, and how far it may go on.
#[derive(Clone, Copy)]
pub struct Context<'a> {
    pub alloc: Global,
    pub functions: &'a [Function],
    pub current: &'a Function,
    /// The most turns of each execution of a loop.
    pub turns: u64,
    /// How many levels deeper a function may be called.
    pub left: u64,
    /// How many calls of inline functions may be nested.
    pub nest: u64,
}

/// The value of an expression.
#[cycle(evaluate)]
pub fn evaluate(e: &Expression, context: &Context<'_>, env: &Environment<'_>) -> Result<Array, Stop>
    ensures { Tells result (meaning_in context.now (expr e.now) (env_of env.now)) }
{
    let alloc = context.alloc;
    match e {
        Expression::Number(n, _) => Ok(Array::scalar(alloc, Base::Int, *n)?),
        Expression::Truth(b, _) => Ok(Array::scalar(alloc, Base::Bool, i32::from(*b))?),
        Expression::Variable(name, _) => value_of(alloc, env, name),
        Expression::Literal(es, site) => {
            let values = evaluate_all(es, context, env)?;
            literal_at(alloc, &values, *site)
        }
        Expression::Unary(op, e, _) => {
            let a = evaluate(e, context, env)?;
            unary_of(alloc, *op, &a)
        }
        Expression::Binary(op, left, right, site) => {
            evaluate_binary(left, right, *op, *site, context, env)
        }
        Expression::Choice(test, first, second, site) => {
            if evaluate_test(test, *site, context, env)? {
                evaluate(first, context, env)
            } else {
                evaluate(second, context, env)
            }
        }
        Expression::Select(array, index, site) => {
            evaluate_select(array, index, *site, context, env)
        }
        Expression::Builtin(b, es, site) => {
            let values = evaluate_all(es, context, env)?;
            built_in_at(alloc, *b, &values, *site)
        }
        Expression::Call(name, es, site) => {
            let results = evaluate_call(name, es, *site, context, env)?;
            first_result_of(alloc, &results)
        }
        Expression::With(gs, op, site) => evaluate_with(gs, op, *site, context, env),
    }
}

/// The value of an operator on two operands.
#[cycle(evaluate)]
fn evaluate_binary(
    left: &Expression,
    right: &Expression,
    op: Op,
    site: Site,
    context: &Context<'_>,
    env: &Environment<'_>,
) -> Result<Array, Stop>
    ensures { Tells result (meaning_in context.now (Tree.binary op (expr left.now) (expr right.now) site) (env_of env.now)) }
{
    let a = evaluate(left, context, env)?;
    let b = evaluate(right, context, env)?;
    binary_at(context.alloc, op, &a, &b, site)
}

/// What a condition says.
#[cycle(evaluate)]
fn evaluate_test(
    test: &Expression,
    site: Site,
    context: &Context<'_>,
    env: &Environment<'_>,
) -> Result<bool, Stop>
    ensures { Tells result (test_in context.now (expr test.now) site (env_of env.now)) }
{
    let c = evaluate(test, context, env)?;
    condition_at(&c, site)
}

/// The part of an array at an index. The array of a variable is not copied.
#[cycle(evaluate)]
fn evaluate_select(
    array: &Expression,
    index: &Expression,
    site: Site,
    context: &Context<'_>,
    env: &Environment<'_>,
) -> Result<Array, Stop>
    ensures { Tells result (meaning_in context.now (Tree.select (expr array.now) (expr index.now) site) (env_of env.now)) }
{
    if let Expression::Variable(name, _) = array {
        if let Some(a) = lookup(&*env, name) {
            let i = evaluate(index, context, env)?;
            return select_at(context.alloc, a, &i, site);
        }
    }
    let a = evaluate(array, context, env)?;
    let i = evaluate(index, context, env)?;
    select_at(context.alloc, &a, &i, site)
}

/// The values of expressions, from left to right.
#[cycle(evaluate)]
fn evaluate_all(
    es: &[Expression],
    context: &Context<'_>,
    env: &Environment<'_>,
) -> Result<Vec<Array>, Stop>
    ensures { TellsItems result (meanings_in context.now (exprs es.now) (env_of env.now)) }
{
    let mut values = Vec::new(context.alloc);
    for e in es {
        let value = evaluate(e, context, env)?;
        push(&mut values, value)?;
    }
    Ok(values)
}

fn push(values: &mut Vec<Array>, value: Array) -> Result<(), Memory>
    ensures { OnOk result (values.new.items ≡ values.old.items ++ value ∷ []) }
{
    values.push(value)?;
    Ok(())
}

/// The results of a call.
#[cycle(evaluate)]
fn evaluate_call(
    name: &Name,
    es: &[Expression],
    site: Site,
    context: &Context<'_>,
    env: &Environment<'_>,
) -> Result<Vec<Array>, Stop>
    ensures { TellsItems result (call_with (calls_in context.now) name.now site (meanings_in context.now (exprs es.now) (env_of env.now))) }
{
    let args = evaluate_all(es, context, env)?;
    call(name, args, site, context)
}

/// Runs a statement.
#[cycle(evaluate)]
pub fn run(s: &Statement, context: &Context<'_>, env: &mut Environment<'_>) -> Result<(), Stop>
    ensures { TellsEnv result (env_of env.new) (statement_in context.now (stmt s.now) (env_of env.old)) }
{
    match s {
        Statement::Assign { targets, value } => run_assign(value, targets, context, env),
        Statement::Replace {
            target,
            bracket,
            index,
            value,
        } => run_replace(index, value, target, *bracket, context, env),
        Statement::If {
            cond,
            yes,
            no,
            site,
        } => {
            if evaluate_test(cond, *site, context, env)? {
                run_block(yes, context, env)
            } else {
                run_block(no, context, env)
            }
        }
        Statement::While { cond, body, site } => {
            repeat_while(cond, body, context.turns, *site, *site, context, env)
        }
        Statement::Do {
            body,
            cond,
            site,
            test,
        } => {
            run_block(body, context, env)?;
            repeat_while(
                cond,
                body,
                context.turns.saturating_sub(1),
                *site,
                *test,
                context,
                env,
            )
        }
    }
}

/// Binds targets to the results of a call, or to a value.
#[cycle(evaluate)]
fn run_assign(
    value: &Expression,
    targets: &[Target],
    context: &Context<'_>,
    env: &mut Environment<'_>,
) -> Result<(), Stop>
    ensures { TellsEnv result (env_of env.new) (statement_in context.now (Tree.assign targets.now (expr value.now)) (env_of env.old)) }
{
    match value {
        Expression::Call(name, es, site) => {
            let results = evaluate_call(name, es, *site, context, env)?;
            assign_all(env, targets, results)
        }
        _ => {
            let result_value = evaluate(value, context, env)?;
            assign_one(env, targets, result_value)
        }
    }
}

/// Binds a variable to its array with another part.
#[cycle(evaluate)]
fn run_replace(
    index: &Expression,
    value: &Expression,
    target: &Target,
    bracket: Site,
    context: &Context<'_>,
    env: &mut Environment<'_>,
) -> Result<(), Stop>
    ensures { TellsEnv result (env_of env.new) (statement_in context.now (Tree.replace target.now bracket (expr index.now) (expr value.now)) (env_of env.old)) }
{
    let i = evaluate(index, context, env)?;
    let v = evaluate(value, context, env)?;
    let a = replace_at(context.alloc, env, &target.name, &i, &v, bracket)?;
    assign(env, &target.name, a)?;
    Ok(())
}

/// Runs statements in order.
#[cycle(evaluate)]
fn run_block(ss: &[Statement], context: &Context<'_>, env: &mut Environment<'_>) -> Result<(), Stop>
    ensures { TellsEnv result (env_of env.new) (block_in context.now (block ss.now) (env_of env.old)) }
{
    for s in ss {
        run(s, context, env)?;
    }
    Ok(())
}

/// Repeats a block while a condition holds, for at most so many turns.
#[cycle(evaluate)]
fn repeat_while(
    cond: &Expression,
    body: &[Statement],
    turns: u64,
    site: Site,
    test_site: Site,
    context: &Context<'_>,
    env: &mut Environment<'_>,
) -> Result<(), Stop>
    ensures { TellsEnv result (env_of env.new) (repeat_in context.now turns site test_site (expr cond.now) (block body.now) (env_of env.old)) }
{
    let mut left = turns;
    loop {
        if !evaluate_test(cond, test_site, context, env)? {
            return Ok(());
        }
        if left == 0 {
            return Err(fault(FaultKind::F9, site));
        }
        left -= 1;
        run_block(body, context, env)?;
    }
}

/// Calls the least instance of a name that fits the arguments.
#[cycle(evaluate)]
fn call(
    name: &Name,
    args: Vec<Array>,
    site: Site,
    context: &Context<'_>,
) -> Result<Vec<Array>, Stop>
    ensures { TellsItems result (calls_in context.now name.now args.items site) }
{
    match choose_instance(context.functions, name, &args) {
        None => Err(fault(FaultKind::F7, site)),
        Some(place) => run_at(place, args, site, context),
    }
}

/// Runs the function at a place.
#[cycle(evaluate)]
fn run_at(
    place: usize,
    args: Vec<Array>,
    site: Site,
    context: &Context<'_>,
) -> Result<Vec<Array>, Stop>
    requires { place < length context.now.functions.now }
    ensures { TellsItems result (run_chosen_in context.now place args.items site) }
{
    let current = &context.functions[place];
    let Context {
        alloc,
        functions,
        turns,
        left,
        nest,
        ..
    } = *context;
    if current.inline {
        if nest == 0 {
            return Err(fault(FaultKind::F10, site));
        }
        let inner = Context {
            alloc,
            functions,
            current,
            turns,
            left,
            nest: nest - 1,
        };
        run_function(args, &inner)
    } else {
        if left == 0 {
            return Err(fault(FaultKind::F10, site));
        }
        let nest = functions.len() as u64;
        let deeper = Context {
            alloc,
            functions,
            current,
            turns,
            left: left - 1,
            nest,
        };
        run_function(args, &deeper)
    }
}

/// Runs the current function on arguments.
#[cycle(evaluate)]
pub fn run_function(args: Vec<Array>, context: &Context<'_>) -> Result<Vec<Array>, Stop>
    ensures { TellsItems result (function_in context.now args.items) }
{
    let current = context.current;
    let mut env = Environment {
        outer: None,
        bindings: Vec::new(context.alloc),
    };
    bind_params(&mut env, &current.params, args)?;
    run_block(&current.body, context, &mut env)?;
    let values = evaluate_all(&current.values, context, &env)?;
    results_of(&current.results, values, current.ends)
}

/// The value of a with-loop.
#[cycle(evaluate)]
fn evaluate_with(
    gs: &[Generator],
    op: &Operation,
    site: Site,
    context: &Context<'_>,
    env: &Environment<'_>,
) -> Result<Array, Stop>
    ensures { Tells result (meaning_in context.now (Tree.with_loop (View.generators gs.now) (View.operation op.now) site) (env_of env.now)) }
{
    let bounds = evaluate_generators(gs, context, env)?;
    match evaluate_operation(op, gs, context, env)? {
        Evaluated::Genarray {
            shape,
            default,
            site,
        } => {
            let plan = genarray_plan(context.alloc, &bounds, &shape, &default, site)?;
            array_cells(gs, plan, &default, false, context, env)
        }
        Evaluated::Modarray { array, site } => {
            let plan = modarray_plan(context.alloc, &bounds, &array, site)?;
            array_cells(gs, plan, &array, true, context, env)
        }
        Evaluated::Fold { op, neutral, site } => {
            let plan = fold_plan(context.alloc, &bounds, &neutral, site)?;
            fold_cells(gs, op, neutral, &plan, context, env)
        }
    }
}

/// The bounds of generators, in the text's order.
#[cycle(evaluate)]
fn evaluate_generators(
    gs: &[Generator],
    context: &Context<'_>,
    env: &Environment<'_>,
) -> Result<Vec<Bounds>, Stop>
    ensures { TellsItems result (each (bounds_in context.now (env_of env.now)) gs.now) }
{
    let mut all = Vec::new(context.alloc);
    for g in gs {
        let bounds = evaluate_generator(g, context, env)?;
        all.push(bounds)?;
    }
    Ok(all)
}

/// The bounds, step and width of a generator, where they are given.
#[cycle(evaluate)]
fn evaluate_generator(
    g: &Generator,
    context: &Context<'_>,
    env: &Environment<'_>,
) -> Result<Bounds, Stop>
    ensures { Tells result (bounds_in context.now (env_of env.now) g.now) }
{
    let lower = evaluate_bound(&g.lower, context, env)?;
    let upper = evaluate_bound(&g.upper, context, env)?;
    let step = evaluate_maybe(&g.step, context, env)?;
    let width = evaluate_maybe(&g.width, context, env)?;
    Ok(Bounds {
        lower,
        lower_closed: g.lower_closed,
        names: name_count(&g.index),
        upper,
        upper_closed: g.upper_closed,
        step,
        width,
        site: g.site,
    })
}

fn name_count(index: &Index) -> Option<usize>
    ensures { result ≡ name_count_value (View.index_view index.now) }
{
    match index {
        Index::Named(_) => None,
        Index::Parts(targets) => Some(targets.len()),
    }
}

/// The value of a bound that is no dot.
#[cycle(evaluate)]
fn evaluate_bound(
    b: &Bound,
    context: &Context<'_>,
    env: &Environment<'_>,
) -> Result<Option<Array>, Stop>
    ensures { Tells result (bound_in context.now (View.bound b.now) (env_of env.now)) }
{
    match b {
        Bound::Dot(_) => Ok(None),
        Bound::Given(e) => {
            let value = evaluate(e, context, env)?;
            Ok(Some(value))
        }
    }
}

/// The value of an expression that may be left out.
#[cycle(evaluate)]
fn evaluate_maybe(
    e: &Option<Expression>,
    context: &Context<'_>,
    env: &Environment<'_>,
) -> Result<Option<Array>, Stop>
    ensures { Tells result (maybe_in context.now (View.maybe e.now) (env_of env.now)) }
{
    match e {
        None => Ok(None),
        Some(e) => {
            let value = evaluate(e, context, env)?;
            Ok(Some(value))
        }
    }
}

/// The arguments of an operation.
#[cycle(evaluate)]
fn evaluate_operation(
    op: &Operation,
    gs: &[Generator],
    context: &Context<'_>,
    env: &Environment<'_>,
) -> Result<Evaluated, Stop>
    ensures { TellsAs operation_of result (operation_in context.now (View.operation op.now) (View.generators gs.now) (env_of env.now)) }
{
    match op {
        Operation::Genarray {
            shape,
            default,
            site,
        } => {
            let shape = evaluate(shape, context, env)?;
            let given = evaluate_maybe(default, context, env)?;
            let Context {
                alloc,
                functions,
                current,
                ..
            } = *context;
            let default = default_or_zero(alloc, functions, current, gs, given)?;
            Ok(Evaluated::Genarray {
                shape,
                default,
                site: *site,
            })
        }
        Operation::Modarray { array, site } => {
            let array = evaluate(array, context, env)?;
            Ok(Evaluated::Modarray { array, site: *site })
        }
        Operation::Fold { op, neutral, site } => {
            let neutral = evaluate(neutral, context, env)?;
            Ok(Evaluated::Fold {
                op: *op,
                neutral,
                site: *site,
            })
        }
    }
}

/// The array of the cells of all indices.
#[cycle(evaluate)]
fn array_cells(
    gs: &[Generator],
    plan: Plan,
    background: &Array,
    old: bool,
    context: &Context<'_>,
    env: &Environment<'_>,
) -> Result<Array, Stop>
    requires { IsArrayPlan old background.now (plan_of plan) }
    ensures { Tells result (and_then (cells_in context.now gs.now plan.ranges.items plan.frame plan.form (env_of env.now))
        (λ found. Ok (array_from old background.now (plan_of plan) found))) }
{
    let mut cells = Vec::new(context.alloc);
    let mut index = IndexVector::new(context.alloc);
    let size = cell_size(&plan.form.shape);
    for place in 0..plan.frame.count() {
        plan.frame.index(place, &mut index)?;
        let cell = held_cell(gs, &plan.ranges, &index, &plan.form, context, env)?;
        add_cell(&mut cells, background, old, place, size, &cell)?;
    }
    let Plan { shape, .. } = plan;
    Ok(Array::new(background.base(), shape, cells))
}

/// The neutral value combined with the cells of all indices.
#[cycle(evaluate)]
fn fold_cells(
    gs: &[Generator],
    op: Op,
    neutral: Array,
    plan: &Plan,
    context: &Context<'_>,
    env: &Environment<'_>,
) -> Result<Array, Stop>
    ensures { Tells result (and_then (cells_in context.now gs.now plan.now.ranges.items plan.now.frame plan.now.form (env_of env.now))
        (λ found. Ok (fold (combined op) neutral found))) }
{
    let mut value = neutral;
    let mut index = IndexVector::new(context.alloc);
    for place in 0..plan.frame.count() {
        plan.frame.index(place, &mut index)?;
        let cell = held_cell(gs, &plan.ranges, &index, &plan.form, context, env)?;
        value = combine(context.alloc, op, value, &cell)?;
    }
    Ok(value)
}

/// The cell of the first generator that holds the index.
#[cycle(evaluate)]
fn held_cell(
    gs: &[Generator],
    ranges: &[Range],
    index: &IndexVector,
    form: &Form,
    context: &Context<'_>,
    env: &Environment<'_>,
) -> Result<Option<Array>, Stop>
    ensures told { Tells result (held_in context.now gs.now ranges.now index.now form.now (env_of env.now)) }
    ensures sized { IfOk result (λ c. IfSome c (λ a. length a.cells ≡ size form.now.shape)) }
{
    for i in 0..gs.len().min(ranges.len()) {
        if ranges[i].holds(index.components()) {
            return checked_cell(&gs[i], index, form, context, env);
        }
    }
    Ok(None)
}

/// The cell of a generator at an index, which must have the form.
#[cycle(evaluate)]
fn checked_cell(
    g: &Generator,
    index: &IndexVector,
    form: &Form,
    context: &Context<'_>,
    env: &Environment<'_>,
) -> Result<Option<Array>, Stop>
    ensures told { Tells result (checked_in context.now g.now index.now form.now (env_of env.now)) }
    ensures sized { IfOk result (λ c. IfSome c (λ a. length a.cells ≡ size form.now.shape)) }
{
    let cell = cell_at(g, index, context, env)?;
    if !fits_form(form, &cell) {
        return Err(fault(FaultKind::F6, g.site));
    }
    Ok(Some(cell))
}

/// The cell of a generator at an index vector.
#[cycle(evaluate)]
fn cell_at(
    g: &Generator,
    index: &IndexVector,
    context: &Context<'_>,
    env: &Environment<'_>,
) -> Result<Array, Stop>
    ensures { Tells result (cell_in context.now g.now index.now (env_of env.now)) }
{
    let mut inner = Environment {
        outer: Some(env),
        bindings: Vec::new(context.alloc),
    };
    bind_index(context.alloc, &mut inner, &g.index, index)?;
    run_block(&g.body, context, &mut inner)?;
    evaluate(&g.cell, context, &inner)
}

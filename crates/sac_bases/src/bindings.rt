//! What the names of a function are bound to, in the order of its tree, in which a right side stands before its targets.

ghost use Rattle.std.specs.Prelude.{◌≡◌, ◌++◌, [], ◌∷◌, Some, OnOk, IfOk, map, option_map};
ghost use Rattle.sac_base.specs.declared.types.ArrayType.{ArrayType as ArrayTypeValue};
ghost use Rattle.sac_ast.specs.declared.Target.{Target as TargetValue};
ghost use Rattle.sac_ast.specs.Tree;
ghost use Rattle.sac_bases.specs.Lookup.{base_at as base_at_value, in_bounds_of};
ghost use Rattle.sac_ast.specs.Bases;
ghost use Rattle.sac_ast.specs.View;

use crate::base::{base_of, bases_of};
use crate::names::BoundNames;
use check_rules::functions::Functions;
use sac_ast::{Bound, Expression, Function, Generator, Index, Operation, Param, Statement, Target};
use sac_base::{ArrayType, Base, Memory, Name};
use std::alloc::Global;

// The base at a place, where it is there.
fn base_at(bases: &[Option<Base>], place: usize) -> Option<Base>
    ensures { result ≡ base_at_value bases.now place }
{
    match bases.get(place) {
        Some(base) => *base,
        None => None,
    }
}

// Binds targets to values of these bases; those beyond them have none.
fn bind_targets<'a>(
    known: &mut BoundNames<'a>,
    targets: &'a [Target],
    bases: &[Option<Base>],
) -> Result<(), Memory>
    ensures { OnOk result (known.new.all.items ≡ Bases.with_bases targets.now bases.now known.old.all.items) }
{
    for k in 0..targets.len() {
        known.bind(&targets[k].name, base_at(bases, k))?;
    }
    Ok(())
}

// Binds targets to the results of a call with arguments of these bases.
fn bind_results<'a>(
    known: &mut BoundNames<'a>,
    targets: &'a [Target],
    alloc: Global,
    functions: &Functions<'_>,
    name: &Name,
    bases: &[Option<Base>],
) -> Result<(), Memory>
    ensures { OnOk result (known.new.all.items
        ≡ Bases.with_bases targets.now
        (Bases.known_bases (Bases.call_bases_in (View.functions functions.now.all.now) name.now bases.now)) known.old.all.items) }
{
    let results = result_bases(alloc, functions.instance(name, bases))?;
    bind_targets(known, targets, &results)
}

// The bases of the results of a function, where there is one.
fn result_bases(alloc: Global, f: Option<&Function>) -> Result<Vec<Option<Base>>, Memory>
    ensures { IfOk result (λ bs. bs.items ≡ Bases.known_bases (Bases.bases_of_results (option_map (λ f. View.function f.now) f.entry))) }
{
    match f {
        None => Ok(Vec::new(alloc)),
        Some(f) => bases_of_types(alloc, &f.results),
    }
}

fn bases_of_types(alloc: Global, types: &[ArrayType]) -> Result<Vec<Option<Base>>, Memory>
    ensures { IfOk result (λ bs. bs.items ≡ Bases.known_bases (Some (map (λ (ty : ArrayTypeValue). ty.base) types.now))) }
{
    let mut bases = Vec::new(alloc);
    for ty in types {
        bases.push(Some(ty.base))?;
    }
    Ok(bases)
}

fn bind_params<'a>(known: &mut BoundNames<'a>, params: &'a [Param]) -> Result<(), Memory>
    ensures { OnOk result (known.new.all.items ≡ known.old.all.items ++ Bases.bound_params params.now) }
{
    for param in params {
        known.bind(&param.name, Some(param.ty.base))?;
    }
    Ok(())
}

fn bind_index<'a>(known: &mut BoundNames<'a>, index: &'a Index) -> Result<(), Memory>
    ensures { OnOk result (known.new.all.items ≡ known.old.all.items ++ Bases.index_bases (View.index_view index.now)) }
{
    match index {
        Index::Named(target) => known.bind(&target.name, Some(Base::Int)),
        Index::Parts(targets) => bind_parts(known, targets),
    }
}

fn bind_parts<'a>(known: &mut BoundNames<'a>, targets: &'a [Target]) -> Result<(), Memory>
    ensures { OnOk result (known.new.all.items ≡ known.old.all.items ++ map (λ (t : TargetValue). record { name = t.name; base = Some Base.Int }) targets.now) }
{
    for target in targets {
        known.bind(&target.name, Some(Base::Int))?;
    }
    Ok(())
}

// Adds the bindings of an expression.
#[cycle(bindings)]
fn in_expr<'a>(
    e: &'a Expression,
    alloc: Global,
    functions: &Functions<'_>,
    known: &mut BoundNames<'a>,
) -> Result<(), Memory>
    ensures { OnOk result (known.new.all.items
        ≡ Bases.in_expr (Bases.call_bases_in (View.functions functions.now.all.now)) (View.expr e.now) known.old.all.items) }
{
    match e {
        Expression::Number(_, _) | Expression::Truth(_, _) | Expression::Variable(_, _) => Ok(()),
        Expression::Literal(es, _) | Expression::Call(_, es, _) | Expression::Builtin(_, es, _) => {
            in_exprs(es, alloc, functions, known)
        }
        Expression::Unary(_, e, _) => in_expr(e, alloc, functions, known),
        Expression::Binary(_, first, second, _) | Expression::Select(first, second, _) => {
            in_expr(first, alloc, functions, known)?;
            in_expr(second, alloc, functions, known)
        }
        Expression::Choice(test, first, second, _) => {
            in_expr(test, alloc, functions, known)?;
            in_expr(first, alloc, functions, known)?;
            in_expr(second, alloc, functions, known)
        }
        Expression::With(gs, op, _) => {
            in_generators(gs, alloc, functions, known)?;
            in_operation(op, alloc, functions, known)
        }
    }
}

#[cycle(bindings)]
fn in_exprs<'a>(
    es: &'a [Expression],
    alloc: Global,
    functions: &Functions<'_>,
    known: &mut BoundNames<'a>,
) -> Result<(), Memory>
    ensures { OnOk result (known.new.all.items
        ≡ Bases.in_exprs (Bases.call_bases_in (View.functions functions.now.all.now)) (View.exprs es.now) known.old.all.items) }
{
    for e in es {
        in_expr(e, alloc, functions, known)?;
    }
    Ok(())
}

#[cycle(bindings)]
fn in_maybe<'a>(
    e: &'a Option<Expression>,
    alloc: Global,
    functions: &Functions<'_>,
    known: &mut BoundNames<'a>,
) -> Result<(), Memory>
    ensures { OnOk result (known.new.all.items
        ≡ Bases.in_maybe (Bases.call_bases_in (View.functions functions.now.all.now)) (View.maybe e.now) known.old.all.items) }
{
    match e {
        None => Ok(()),
        Some(e) => in_expr(e, alloc, functions, known),
    }
}

#[cycle(bindings)]
fn in_bound<'a>(
    b: &'a Bound,
    alloc: Global,
    functions: &Functions<'_>,
    known: &mut BoundNames<'a>,
) -> Result<(), Memory>
    ensures { OnOk result (known.new.all.items
        ≡ Bases.in_bound (Bases.call_bases_in (View.functions functions.now.all.now)) (View.bound b.now) known.old.all.items) }
{
    match b {
        Bound::Dot(_) => Ok(()),
        Bound::Given(e) => in_expr(e, alloc, functions, known),
    }
}

#[cycle(bindings)]
fn in_generator<'a>(
    g: &'a Generator,
    alloc: Global,
    functions: &Functions<'_>,
    known: &mut BoundNames<'a>,
) -> Result<(), Memory>
    ensures { OnOk result (known.new.all.items
        ≡ Bases.in_gen (Bases.call_bases_in (View.functions functions.now.all.now)) (View.generator g.now) known.old.all.items) }
{
    in_bounds(g, alloc, functions, known)?;
    in_cell(g, alloc, functions, known)
}

// Adds the bindings of a generator's block and cell.
#[cycle(bindings)]
fn in_cell<'a>(
    g: &'a Generator,
    alloc: Global,
    functions: &Functions<'_>,
    known: &mut BoundNames<'a>,
) -> Result<(), Memory>
    ensures { OnOk result (known.new.all.items
        ≡ Bases.in_expr (Bases.call_bases_in (View.functions functions.now.all.now)) (View.expr g.now.cell)
        (Bases.in_block (Bases.call_bases_in (View.functions functions.now.all.now)) (View.block g.now.body.items) known.old.all.items)) }
{
    in_block(&g.body, alloc, functions, known)?;
    in_expr(&g.cell, alloc, functions, known)
}

// Adds the bindings of a generator's bounds, index, step and width.
#[cycle(bindings)]
fn in_bounds<'a>(
    g: &'a Generator,
    alloc: Global,
    functions: &Functions<'_>,
    known: &mut BoundNames<'a>,
) -> Result<(), Memory>
    ensures { OnOk result (known.new.all.items ≡ in_bounds_of (View.functions functions.now.all.now) g.now known.old.all.items) }
{
    in_bound(&g.lower, alloc, functions, known)?;
    bind_index(known, &g.index)?;
    in_bound(&g.upper, alloc, functions, known)?;
    in_maybe(&g.step, alloc, functions, known)?;
    in_maybe(&g.width, alloc, functions, known)?;
    Ok(())
}

#[cycle(bindings)]
fn in_generators<'a>(
    gs: &'a [Generator],
    alloc: Global,
    functions: &Functions<'_>,
    known: &mut BoundNames<'a>,
) -> Result<(), Memory>
    ensures { OnOk result (known.new.all.items
        ≡ Bases.in_gens (Bases.call_bases_in (View.functions functions.now.all.now)) (View.generators gs.now) known.old.all.items) }
{
    for g in gs {
        in_generator(g, alloc, functions, known)?;
    }
    Ok(())
}

#[cycle(bindings)]
fn in_operation<'a>(
    op: &'a Operation,
    alloc: Global,
    functions: &Functions<'_>,
    known: &mut BoundNames<'a>,
) -> Result<(), Memory>
    ensures { OnOk result (known.new.all.items
        ≡ Bases.in_operation (Bases.call_bases_in (View.functions functions.now.all.now)) (View.operation op.now) known.old.all.items) }
{
    match op {
        Operation::Genarray { shape, default, .. } => {
            in_expr(shape, alloc, functions, known)?;
            in_maybe(default, alloc, functions, known)
        }
        Operation::Modarray { array, .. } => in_expr(array, alloc, functions, known),
        Operation::Fold { neutral, .. } => in_expr(neutral, alloc, functions, known),
    }
}

#[cycle(bindings)]
fn in_stmt<'a>(
    s: &'a Statement,
    alloc: Global,
    functions: &Functions<'_>,
    known: &mut BoundNames<'a>,
) -> Result<(), Memory>
    ensures { OnOk result (known.new.all.items
        ≡ Bases.in_stmt (Bases.call_bases_in (View.functions functions.now.all.now)) (View.stmt s.now) known.old.all.items) }
{
    match s {
        Statement::Assign { targets, value } => in_assign(value, targets, alloc, functions, known),
        // A replacement tells no base: its name is bound before.
        Statement::Replace {
            target,
            index,
            value,
            ..
        } => {
            in_expr(index, alloc, functions, known)?;
            in_expr(value, alloc, functions, known)?;
            known.bind(&target.name, None)
        }
        Statement::If { cond, yes, no, .. } => {
            in_expr(cond, alloc, functions, known)?;
            in_block(yes, alloc, functions, known)?;
            in_block(no, alloc, functions, known)
        }
        Statement::While { cond, body, .. } => {
            in_expr(cond, alloc, functions, known)?;
            in_block(body, alloc, functions, known)
        }
        Statement::Do { body, cond, .. } => {
            in_block(body, alloc, functions, known)?;
            in_expr(cond, alloc, functions, known)
        }
    }
}

#[cycle(bindings)]
fn in_assign<'a>(
    value: &'a Expression,
    targets: &'a [Target],
    alloc: Global,
    functions: &Functions<'_>,
    known: &mut BoundNames<'a>,
) -> Result<(), Memory>
    ensures { OnOk result (known.new.all.items
        ≡ Bases.in_stmt (Bases.call_bases_in (View.functions functions.now.all.now)) (Tree.assign targets.now (View.expr value.now)) known.old.all.items) }
{
    match value {
        Expression::Call(name, es, _) => {
            in_exprs(es, alloc, functions, known)?;
            let bases = bases_of(es, alloc, functions, known)?;
            bind_results(known, targets, alloc, functions, name, &bases)
        }
        _ => {
            in_expr(value, alloc, functions, known)?;
            let base = base_of(value, alloc, functions, known)?;
            bind_targets(known, targets, &[base])
        }
    }
}

#[cycle(bindings)]
fn in_block<'a>(
    ss: &'a [Statement],
    alloc: Global,
    functions: &Functions<'_>,
    known: &mut BoundNames<'a>,
) -> Result<(), Memory>
    ensures { OnOk result (known.new.all.items
        ≡ Bases.in_block (Bases.call_bases_in (View.functions functions.now.all.now)) (View.block ss.now) known.old.all.items) }
{
    for s in ss {
        in_stmt(s, alloc, functions, known)?;
    }
    Ok(())
}

/// What the names of a function are bound to.
pub fn known_in<'a>(
    alloc: Global,
    functions: &Functions<'_>,
    f: &'a Function,
) -> Result<BoundNames<'a>, Memory>
    ensures { IfOk result (λ known. known.all.items ≡ Bases.known_in (View.functions functions.now.all.now) (View.function f.now)) }
{
    let mut known = BoundNames::new(alloc);
    bind_params(&mut known, &f.params)?;
    in_block(&f.body, alloc, functions, &mut known)?;
    in_exprs(&f.values, alloc, functions, &mut known)?;
    Ok(known)
}

/// The base of an expression of a function.
pub fn base_in(
    e: &Expression,
    alloc: Global,
    functions: &[Function],
    f: &Function,
) -> Result<Option<Base>, Memory>
    ensures { IfOk result (λ b. b ≡ Bases.base_in (View.functions functions.now) (View.function f.now) (View.expr e.now)) }
{
    let by_name = Functions::new(alloc, functions)?;
    let known = known_in(alloc, &by_name, f)?;
    base_of(e, alloc, &by_name, &known)
}

//! The names that are bound anywhere in a function.

ghost use Rattle.std.specs.Prelude.{◌≡◌, [], ◌∷◌, OnOk, IfOk};
ghost use Rattle.check_rules.specs.Accepted.{with_names, target_names, param_names, index_names, names_in, names_in_expr, names_in_exprs};
ghost use Rattle.check_rules.specs.Accepted.{names_in_maybe, names_in_bound, names_in_gen, names_in_gens, names_in_operation, names_in_stmt};
ghost use Rattle.check_rules.specs.Accepted.{names_in_block};
ghost use Rattle.sac_ast.specs.View;
ghost use Rattle.check_rules.specs.Tables.{has};

use crate::names::note;
use indexmap::IndexSet;
use sac_ast::{Bound, Expression, Function, Generator, Index, Operation, Param, Statement, Target};
use sac_base::Memory;
use std::alloc::Global;

fn list_targets<'a>(targets: &'a [Target], names: &mut IndexSet<&'a str>) -> Result<(), Memory>
    ensures { OnOk result (has names.new ≡ with_names (target_names targets.now) (has names.old)) }
{
    for target in targets {
        note(names, &target.name)?;
    }
    Ok(())
}

fn list_params<'a>(params: &'a [Param], names: &mut IndexSet<&'a str>) -> Result<(), Memory>
    ensures { OnOk result (has names.new ≡ with_names (param_names params.now) (has names.old)) }
{
    for param in params {
        note(names, &param.name)?;
    }
    Ok(())
}

fn list_index<'a>(index: &'a Index, names: &mut IndexSet<&'a str>) -> Result<(), Memory>
    ensures { OnOk result (has names.new ≡ with_names (index_names (View.index_view index.now)) (has names.old)) }
{
    match index {
        Index::Named(target) => {
            note(names, &target.name)?;
            Ok(())
        }
        Index::Parts(targets) => list_targets(targets, names),
    }
}

#[cycle(listing)]
fn list_expression<'a>(e: &'a Expression, names: &mut IndexSet<&'a str>) -> Result<(), Memory>
    ensures { OnOk result (has names.new ≡ names_in_expr (View.expr e.now) (has names.old)) }
{
    match e {
        Expression::Number(_, _) | Expression::Truth(_, _) | Expression::Variable(_, _) => Ok(()),
        Expression::Literal(es, _) => list_expressions(es, names),
        Expression::Unary(_, e, _) => list_expression(e, names),
        Expression::Binary(_, left, right, _) => {
            list_expression(left, names)?;
            list_expression(right, names)
        }
        Expression::Choice(test, first, second, _) => {
            list_expression(test, names)?;
            list_expression(first, names)?;
            list_expression(second, names)
        }
        Expression::Select(array, index, _) => {
            list_expression(array, names)?;
            list_expression(index, names)
        }
        Expression::Call(_, es, _) => list_expressions(es, names),
        Expression::Builtin(_, es, _) => list_expressions(es, names),
        Expression::With(gs, op, _) => {
            list_generators(gs, names)?;
            list_operation(op, names)
        }
    }
}

#[cycle(listing)]
fn list_expressions<'a>(es: &'a [Expression], names: &mut IndexSet<&'a str>) -> Result<(), Memory>
    ensures { OnOk result (has names.new ≡ names_in_exprs (View.exprs es.now) (has names.old)) }
{
    for e in es {
        list_expression(e, names)?;
    }
    Ok(())
}

#[cycle(listing)]
fn list_maybe<'a>(e: &'a Option<Expression>, names: &mut IndexSet<&'a str>) -> Result<(), Memory>
    ensures { OnOk result (has names.new ≡ names_in_maybe (View.maybe e.now) (has names.old)) }
{
    match e {
        None => Ok(()),
        Some(e) => list_expression(e, names),
    }
}

#[cycle(listing)]
fn list_bound<'a>(b: &'a Bound, names: &mut IndexSet<&'a str>) -> Result<(), Memory>
    ensures { OnOk result (has names.new ≡ names_in_bound (View.bound b.now) (has names.old)) }
{
    match b {
        Bound::Dot(_) => Ok(()),
        Bound::Given(e) => list_expression(e, names),
    }
}

#[cycle(listing)]
fn list_generator<'a>(g: &'a Generator, names: &mut IndexSet<&'a str>) -> Result<(), Memory>
    ensures { OnOk result (has names.new ≡ names_in_gen (View.generator g.now) (has names.old)) }
{
    list_index(&g.index, names)?;
    list_block(&g.body, names)?;
    list_bound(&g.lower, names)?;
    list_bound(&g.upper, names)?;
    list_maybe(&g.step, names)?;
    list_maybe(&g.width, names)?;
    list_expression(&g.cell, names)
}

#[cycle(listing)]
fn list_generators<'a>(gs: &'a [Generator], names: &mut IndexSet<&'a str>) -> Result<(), Memory>
    ensures { OnOk result (has names.new ≡ names_in_gens (View.generators gs.now) (has names.old)) }
{
    for g in gs {
        list_generator(g, names)?;
    }
    Ok(())
}

#[cycle(listing)]
fn list_operation<'a>(op: &'a Operation, names: &mut IndexSet<&'a str>) -> Result<(), Memory>
    ensures { OnOk result (has names.new ≡ names_in_operation (View.operation op.now) (has names.old)) }
{
    match op {
        Operation::Genarray { shape, default, .. } => {
            list_expression(shape, names)?;
            list_maybe(default, names)
        }
        Operation::Modarray { array, .. } => list_expression(array, names),
        Operation::Fold { neutral, .. } => list_expression(neutral, names),
    }
}

#[cycle(listing)]
fn list_statement<'a>(s: &'a Statement, names: &mut IndexSet<&'a str>) -> Result<(), Memory>
    ensures { OnOk result (has names.new ≡ names_in_stmt (View.stmt s.now) (has names.old)) }
{
    match s {
        Statement::Assign { targets, value } => {
            list_expression(value, names)?;
            list_targets(targets, names)
        }
        Statement::Replace {
            target,
            index,
            value,
            ..
        } => {
            list_expression(index, names)?;
            list_expression(value, names)?;
            note(names, &target.name)?;
            Ok(())
        }
        Statement::If { cond, yes, no, .. } => {
            list_expression(cond, names)?;
            list_block(yes, names)?;
            list_block(no, names)
        }
        Statement::While { cond, body, .. } => {
            list_expression(cond, names)?;
            list_block(body, names)
        }
        Statement::Do { body, cond, .. } => {
            list_block(body, names)?;
            list_expression(cond, names)
        }
    }
}

#[cycle(listing)]
fn list_block<'a>(ss: &'a [Statement], names: &mut IndexSet<&'a str>) -> Result<(), Memory>
    ensures { OnOk result (has names.new ≡ names_in_block (View.block ss.now) (has names.old)) }
{
    for s in ss {
        list_statement(s, names)?;
    }
    Ok(())
}

/// The names that are bound anywhere in a function.
pub fn listed<'a>(f: &'a Function, alloc: Global) -> Result<IndexSet<&'a str>, Memory>
    ensures { IfOk result (λ names. has names ≡ names_in (View.function f.now)) }
{
    let mut names = IndexSet::new(alloc);
    list_params(&f.params, &mut names)?;
    list_block(&f.body, &mut names)?;
    list_expressions(&f.values, &mut names)?;
    Ok(names)
}

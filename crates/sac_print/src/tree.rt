//! Expressions and statements.
ghost use Rattle.std.specs.Prelude.{◌≡◌};
ghost use Rattle.sac_ast.specs.View.{expr, exprs, maybe, stmt, block, bound, generator, generators, operation};
ghost use Rattle.sac_print.specs.declared.level.Level.TheVariants as level;
ghost use Rattle.sac_print.specs.Texts.{Prints};
ghost use Rattle.sac_print.specs.Canonical.{spell, spell_index, spell_list, spell_maybe, spell_stmt, spell_block, spell_else, spell_body};
ghost use Rattle.sac_print.specs.Canonical.{spell_bound, spell_gen, spell_gens, spell_operation, spell_default, parens, braces};

use crate::level::Level;
use crate::lists::{put_index_names, put_targets};
use crate::texts::{
    bound_sign, builtin_text, close, is_function, open, operator_text, put, put_comma, put_number,
    truth_text,
};
use sac_ast::{Bound, Expression, Generator, Operation, Statement};
use sac_base::Memory;

/// Writes an expression where a phrase of a level is wanted.
#[cycle(print)]
pub fn put_expression(e: &Expression, wanted: Level, out: &mut Vec<u8>) -> Result<(), Memory>
    ensures { Prints result out.old.items out.new.items (spell (expr e.now) wanted) }
{
    match e {
        Expression::Number(n, _) => put_number(*n, out),
        Expression::Truth(b, _) => put(truth_text(*b), out),
        Expression::Variable(name, _) => put(name.as_str(), out),
        Expression::Literal(es, _) => {
            put("[", out)?;
            put_list(es, out)?;
            put("]", out)
        }
        Expression::Unary(op, e, _) => {
            let needed = Level::Prefix.is_looser(wanted);
            open(needed, out)?;
            put(operator_text(*op), out)?;
            put_expression(e, Level::Prefix, out)?;
            close(needed, out)
        }
        Expression::Binary(op, a, b, _) => {
            if is_function(*op) {
                put(operator_text(*op), out)?;
                put("(", out)?;
                put_expression(a, Level::Expression, out)?;
                put(",", out)?;
                put_expression(b, Level::Expression, out)?;
                return put(")", out);
            }
            let level = Level::of(*op);
            let needed = level.is_looser(wanted);
            open(needed, out)?;
            put_expression(a, level, out)?;
            put(operator_text(*op), out)?;
            put_expression(b, level.tighter(), out)?;
            close(needed, out)
        }
        Expression::Choice(test, a, b, _) => {
            let needed = Level::Expression.is_looser(wanted);
            open(needed, out)?;
            put_expression(test, Level::Disjunction, out)?;
            put("?", out)?;
            put_expression(a, Level::Expression, out)?;
            put(":", out)?;
            put_expression(b, Level::Expression, out)?;
            close(needed, out)
        }
        Expression::Select(a, i, _) => {
            put_expression(a, Level::Postfix, out)?;
            put("[", out)?;
            put_index(i, out)?;
            put("]", out)
        }
        Expression::Call(name, es, _) => {
            put(name.as_str(), out)?;
            put("(", out)?;
            put_list(es, out)?;
            put(")", out)
        }
        Expression::Builtin(b, es, _) => {
            put(builtin_text(*b), out)?;
            put("(", out)?;
            put_list(es, out)?;
            put(")", out)
        }
        Expression::With(gs, op, _) => {
            put("with", out)?;
            put("{", out)?;
            put_generators(gs, out)?;
            put("}", out)?;
            put(":", out)?;
            put_operation(op, out)
        }
    }
}

/// Writes an index between its brackets: a literal of two elements or more as the list of them.
#[cycle(print)]
fn put_index(e: &Expression, out: &mut Vec<u8>) -> Result<(), Memory>
    ensures { Prints result out.old.items out.new.items (spell_index (expr e.now)) }
{
    match e {
        Expression::Literal(es, _) if es.len() > 1 => put_list(es, out),
        _ => put_expression(e, Level::Expression, out),
    }
}

/// Writes expressions with commas between them.
#[cycle(print)]
pub fn put_list(es: &[Expression], out: &mut Vec<u8>) -> Result<(), Memory>
    ensures { Prints result out.old.items out.new.items (spell_list (exprs es.now)) }
{
    for (place, e) in es.iter().enumerate() {
        put_comma(place, out)?;
        put_expression(e, Level::Expression, out)?;
    }
    Ok(())
}

#[cycle(print)]
fn put_generators(gs: &[Generator], out: &mut Vec<u8>) -> Result<(), Memory>
    ensures { Prints result out.old.items out.new.items (spell_gens (generators gs.now)) }
{
    for g in gs {
        put_generator(g, out)?;
    }
    Ok(())
}

#[cycle(print)]
fn put_generator(g: &Generator, out: &mut Vec<u8>) -> Result<(), Memory>
    ensures { Prints result out.old.items out.new.items (spell_gen (generator g.now)) }
{
    put("(", out)?;
    put_bound(&g.lower, out)?;
    put(bound_sign(g.lower_closed), out)?;
    put_index_names(&g.index, out)?;
    put(bound_sign(g.upper_closed), out)?;
    put_bound(&g.upper, out)?;
    put_maybe(&g.step, "step", out)?;
    put_maybe(&g.width, "width", out)?;
    put(")", out)?;
    put_body(&g.body, out)?;
    put(":", out)?;
    put_expression(&g.cell, Level::Expression, out)?;
    put(";", out)
}

#[cycle(print)]
fn put_bound(bound: &Bound, out: &mut Vec<u8>) -> Result<(), Memory>
    ensures { Prints result out.old.items out.new.items (spell_bound (Rattle.sac_ast.specs.View.bound bound.now)) }
{
    match bound {
        Bound::Dot(_) => put(".", out),
        Bound::Given(e) => put_expression(e, Level::Sum, out),
    }
}

/// Writes a step or a width behind its word, if it is given.
#[cycle(print)]
fn put_maybe(e: &Option<Expression>, word: &str, out: &mut Vec<u8>) -> Result<(), Memory>
    ensures { Prints result out.old.items out.new.items (spell_maybe (maybe e.now) word.now) }
{
    let Some(e) = e else {
        return Ok(());
    };
    put(word, out)?;
    put_expression(e, Level::Sum, out)
}

#[cycle(print)]
fn put_operation(op: &Operation, out: &mut Vec<u8>) -> Result<(), Memory>
    ensures { Prints result out.old.items out.new.items (spell_operation (operation op.now)) }
{
    match op {
        Operation::Genarray { shape, default, .. } => {
            put("genarray", out)?;
            put("(", out)?;
            put_expression(shape, Level::Expression, out)?;
            put_default(default, out)?;
            put(")", out)
        }
        Operation::Modarray { array, .. } => {
            put("modarray", out)?;
            put("(", out)?;
            put_expression(array, Level::Expression, out)?;
            put(")", out)
        }
        Operation::Fold { op, neutral, .. } => {
            put("fold", out)?;
            put("(", out)?;
            put(operator_text(*op), out)?;
            put(",", out)?;
            put_expression(neutral, Level::Expression, out)?;
            put(")", out)
        }
    }
}

/// Writes the default of an array behind its shape, if it is given.
#[cycle(print)]
fn put_default(default: &Option<Expression>, out: &mut Vec<u8>) -> Result<(), Memory>
    ensures { Prints result out.old.items out.new.items (spell_default (maybe default.now)) }
{
    let Some(e) = default else {
        return Ok(());
    };
    put(",", out)?;
    put_expression(e, Level::Expression, out)
}

#[cycle(print)]
fn put_statement(s: &Statement, out: &mut Vec<u8>) -> Result<(), Memory>
    ensures { Prints result out.old.items out.new.items (spell_stmt (stmt s.now)) }
{
    match s {
        Statement::Assign { targets, value } => {
            put_targets(targets, out)?;
            put("=", out)?;
            put_expression(value, Level::Expression, out)?;
            put(";", out)
        }
        Statement::Replace {
            target,
            index,
            value,
            ..
        } => {
            put(target.name.as_str(), out)?;
            put("[", out)?;
            put_index(index, out)?;
            put("]", out)?;
            put("=", out)?;
            put_expression(value, Level::Expression, out)?;
            put(";", out)
        }
        Statement::If { cond, yes, no, .. } => {
            put("if", out)?;
            put_condition(cond, out)?;
            put_block(yes, out)?;
            put_else(no, out)
        }
        Statement::While { cond, body, .. } => {
            put("while", out)?;
            put_condition(cond, out)?;
            put_block(body, out)
        }
        Statement::Do { body, cond, .. } => {
            put("do", out)?;
            put_block(body, out)?;
            put("while", out)?;
            put_condition(cond, out)?;
            put(";", out)
        }
    }
}

#[cycle(print)]
fn put_condition(e: &Expression, out: &mut Vec<u8>) -> Result<(), Memory>
    ensures { Prints result out.old.items out.new.items (parens (spell (expr e.now) level.Expression)) }
{
    put("(", out)?;
    put_expression(e, Level::Expression, out)?;
    put(")", out)
}

/// Writes statements between braces.
#[cycle(print)]
fn put_block(ss: &[Statement], out: &mut Vec<u8>) -> Result<(), Memory>
    ensures { Prints result out.old.items out.new.items (braces (spell_block (block ss.now))) }
{
    put("{", out)?;
    put_statements(ss, out)?;
    put("}", out)
}

#[cycle(print)]
pub fn put_statements(ss: &[Statement], out: &mut Vec<u8>) -> Result<(), Memory>
    ensures { Prints result out.old.items out.new.items (spell_block (block ss.now)) }
{
    for s in ss {
        put_statement(s, out)?;
    }
    Ok(())
}

/// Writes the other branch, if it has statements.
#[cycle(print)]
fn put_else(ss: &[Statement], out: &mut Vec<u8>) -> Result<(), Memory>
    ensures { Prints result out.old.items out.new.items (spell_else (block ss.now)) }
{
    if ss.is_empty() {
        return Ok(());
    }
    put("else", out)?;
    put_block(ss, out)
}

/// Writes the block of a generator, if it has statements.
#[cycle(print)]
fn put_body(ss: &[Statement], out: &mut Vec<u8>) -> Result<(), Memory>
    ensures { Prints result out.old.items out.new.items (spell_body (block ss.now)) }
{
    if ss.is_empty() {
        return Ok(());
    }
    put_block(ss, out)
}

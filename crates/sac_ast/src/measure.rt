//! The height of a program.
ghost use Rattle.std.specs.Prelude.{◌≡◌, ◌+◌};
ghost use Rattle.sac_ast.specs.Heights.{height, heights, maybe_height, stmt_height, block_height, bound_height, gen_height, gens_height};
ghost use Rattle.sac_ast.specs.Heights.{operation_height, function_height, program_height, capped};
ghost use Rattle.sac_ast.specs.View as view;

use crate::{Bound, Expression, Function, Generator, Operation, Program, Statement};

/// The height of a node, by the greatest height of its children.
fn above(children: u64) -> u64
    ensures { result ≡ capped (1 + children) }
{
    children.saturating_add(1)
}

#[cycle(height)]
fn expression(e: &Expression) -> u64
    ensures { result ≡ capped (height (view.expr e.now)) }
{
    match e {
        Expression::Number(_, _) | Expression::Truth(_, _) | Expression::Variable(_, _) => 1,
        Expression::Literal(es, _) => above(expressions(es)),
        Expression::Unary(_, e, _) => above(expression(e)),
        Expression::Binary(_, left, right, _) => above(expression(left).max(expression(right))),
        Expression::Choice(cond, yes, no, _) => {
            above(expression(cond).max(expression(yes).max(expression(no))))
        }
        Expression::Select(array, index, _) => above(expression(array).max(expression(index))),
        Expression::Call(_, es, _) => above(expressions(es)),
        Expression::Builtin(_, es, _) => above(expressions(es)),
        Expression::With(generators, op, _) => {
            above(all_generators(generators).max(operation(op)))
        }
    }
}

#[cycle(height)]
fn expressions(es: &[Expression]) -> u64
    ensures { result ≡ capped (heights (view.exprs es.now)) }
{
    let mut greatest = 0;
    for e in es {
        greatest = expression(e).max(greatest);
    }
    greatest
}

#[cycle(height)]
fn maybe(e: &Option<Expression>) -> u64
    ensures { result ≡ capped (maybe_height (view.maybe e.now)) }
{
    match e {
        Some(e) => expression(e),
        None => 0,
    }
}

#[cycle(height)]
fn statement(s: &Statement) -> u64
    ensures { result ≡ capped (stmt_height (view.stmt s.now)) }
{
    match s {
        Statement::Assign { value, .. } => above(expression(value)),
        Statement::Replace { index, value, .. } => above(expression(index).max(expression(value))),
        Statement::If { cond, yes, no, .. } => {
            above(expression(cond).max(statements(yes).max(statements(no))))
        }
        Statement::While { cond, body, .. } => above(expression(cond).max(statements(body))),
        Statement::Do { body, cond, .. } => above(statements(body).max(expression(cond))),
    }
}

#[cycle(height)]
fn statements(ss: &[Statement]) -> u64
    ensures { result ≡ capped (block_height (view.block ss.now)) }
{
    let mut greatest = 0;
    for s in ss {
        greatest = statement(s).max(greatest);
    }
    greatest
}

#[cycle(height)]
fn bound(b: &Bound) -> u64
    ensures { result ≡ capped (bound_height (view.bound b.now)) }
{
    match b {
        Bound::Dot(_) => 0,
        Bound::Given(e) => expression(e),
    }
}

#[cycle(height)]
fn generator(g: &Generator) -> u64
    ensures { result ≡ capped (gen_height (view.generator g.now)) }
{
    let parts = maybe(&g.width).max(statements(&g.body).max(expression(&g.cell)));
    above(bound(&g.lower).max(bound(&g.upper).max(maybe(&g.step).max(parts))))
}

#[cycle(height)]
fn all_generators(gs: &[Generator]) -> u64
    ensures { result ≡ capped (gens_height (view.generators gs.now)) }
{
    let mut greatest = 0;
    for g in gs {
        greatest = generator(g).max(greatest);
    }
    greatest
}

#[cycle(height)]
fn operation(op: &Operation) -> u64
    ensures { result ≡ capped (operation_height (view.operation op.now)) }
{
    match op {
        Operation::Genarray { shape, default, .. } => above(expression(shape).max(maybe(default))),
        Operation::Modarray { array, .. } => above(expression(array)),
        Operation::Fold { neutral, .. } => above(expression(neutral)),
    }
}

fn function(f: &Function) -> u64
    ensures { result ≡ capped (function_height (view.function f.now)) }
{
    above(statements(&f.body).max(expressions(&f.values)))
}

/// The greatest height of a function, or `u64::MAX` where it is greater, and 0 where there is no function.
///
/// The height of a leaf is 1, and that of every other node, a function, statement, generator, operation or expression, the greatest height of its
/// children plus 1.
pub fn height(program: &Program) -> u64
    ensures { result ≡ capped (program_height (view.program program.now)) }
{
    let mut greatest = 0;
    for f in &program.functions {
        greatest = function(f).max(greatest);
    }
    greatest
}

//! The base of an expression.

ghost use Rattle.std.specs.Prelude.{◌≡◌, IfOk};
ghost use Rattle.sac_ast.specs.Bases;
ghost use Rattle.sac_ast.specs.View;
ghost use Rattle.sac_bases.specs.Generators;

use crate::names::BoundNames;
use check_rules::functions::Functions;
use sac_ast::{
    Bound, Expression, Generator, Operation, builtin_base, choice_base, literal_base, may_be,
    may_match, operand_base, operands_fit, where_holds,
};
use sac_base::{Base, Memory, Name, result_base};
use std::alloc::Global;

/// The base of an expression, where names are bound to what is known. An expression whose own rule is violated has none.
#[cycle(bases)]
pub fn base_of(
    e: &Expression,
    alloc: Global,
    functions: &Functions<'_>,
    known: &BoundNames<'_>,
) -> Result<Option<Base>, Memory>
    ensures { IfOk result (λ b. b ≡ Bases.base (Bases.call_bases_in (View.functions functions.now.all.now)) known.now.all.items (View.expr e.now)) }
{
    match e {
        Expression::Number(_, _) => Ok(Some(Base::Int)),
        Expression::Truth(_, _) => Ok(Some(Base::Bool)),
        Expression::Variable(name, _) => Ok(variable_base(known, name)),
        Expression::Literal(es, _) => {
            let bases = bases_of(es, alloc, functions, known)?;
            Ok(literal_base(&bases))
        }
        Expression::Unary(op, e, _) => {
            let base = base_of(e, alloc, functions, known)?;
            let fits = may_be(operand_base(*op), base);
            Ok(where_holds(fits, Some(result_base(*op))))
        }
        Expression::Binary(op, left, right, _) => {
            let a = base_of(left, alloc, functions, known)?;
            let b = base_of(right, alloc, functions, known)?;
            Ok(where_holds(operands_fit(*op, a, b), Some(result_base(*op))))
        }
        Expression::Choice(test, first, second, _) => {
            let c = base_of(test, alloc, functions, known)?;
            let a = base_of(first, alloc, functions, known)?;
            let b = base_of(second, alloc, functions, known)?;
            Ok(where_holds(may_be(Base::Bool, c), choice_base(a, b)))
        }
        Expression::Select(array, index, _) => {
            let a = base_of(array, alloc, functions, known)?;
            let i = base_of(index, alloc, functions, known)?;
            Ok(where_holds(may_be(Base::Int, i), a))
        }
        Expression::Call(name, es, _) => {
            let bases = bases_of(es, alloc, functions, known)?;
            Ok(call_base(functions, name, &bases))
        }
        Expression::Builtin(builtin, es, _) => {
            let bases = bases_of(es, alloc, functions, known)?;
            Ok(builtin_base(*builtin, &bases))
        }
        Expression::With(gs, op, _) => {
            let given = all_given(gs, alloc, functions, known)?;
            let wanted = operation_base(op, first_cell(&given), alloc, functions, known)?;
            Ok(with_base(&given, wanted))
        }
    }
}

// The base of a variable.
fn variable_base(known: &BoundNames<'_>, name: &Name) -> Option<Base>
    ensures { result ≡ Bases.base_of_name known.now.all.items name.now }
{
    known.base_of(name.as_str())
}

// The base of a call that stands as a value: it has one result.
fn call_base(functions: &Functions<'_>, name: &Name, bases: &[Option<Base>]) -> Option<Base>
    ensures { result ≡ Bases.value_base (Bases.call_bases_in (View.functions functions.now.all.now) name.now bases.now) }
{
    match functions.instance(name, bases) {
        None => None,
        Some(f) => {
            if f.results.len() == 1 {
                Some(f.results[0].base)
            } else {
                None
            }
        }
    }
}

/// The bases of expressions.
#[cycle(bases)]
pub fn bases_of(
    es: &[Expression],
    alloc: Global,
    functions: &Functions<'_>,
    known: &BoundNames<'_>,
) -> Result<Vec<Option<Base>>, Memory>
    ensures { IfOk result (λ bs. bs.items ≡ Bases.bases (Bases.call_bases_in (View.functions functions.now.all.now)) known.now.all.items (View.exprs es.now)) }
{
    let mut bases = Vec::new(alloc);
    for e in es {
        let base = base_of(e, alloc, functions, known)?;
        bases.push(base)?;
    }
    Ok(bases)
}

// The base of a value that may be left out, and then has another.
#[cycle(bases)]
fn maybe_base(
    e: &Option<Expression>,
    other: Option<Base>,
    alloc: Global,
    functions: &Functions<'_>,
    known: &BoundNames<'_>,
) -> Result<Option<Base>, Memory>
    ensures { IfOk result (λ b. b ≡ Bases.maybe_base (Bases.call_bases_in (View.functions functions.now.all.now)) known.now.all.items
        (View.maybe e.now) other) }
{
    match e {
        None => Ok(other),
        Some(e) => base_of(e, alloc, functions, known),
    }
}

#[cycle(bases)]
fn bound_base(
    b: &Bound,
    alloc: Global,
    functions: &Functions<'_>,
    known: &BoundNames<'_>,
) -> Result<Option<Base>, Memory>
    ensures { IfOk result (λ base. base
        ≡ Bases.bound_base (Bases.call_bases_in (View.functions functions.now.all.now)) known.now.all.items (View.bound b.now)) }
{
    match b {
        Bound::Dot(_) => Ok(Some(Base::Int)),
        Bound::Given(e) => base_of(e, alloc, functions, known),
    }
}

// The base of an operation's cells, where a missing default has the given one.
#[cycle(bases)]
fn operation_base(
    op: &Operation,
    cell: Option<Base>,
    alloc: Global,
    functions: &Functions<'_>,
    known: &BoundNames<'_>,
) -> Result<Option<Base>, Memory>
    ensures { IfOk result (λ b. b ≡ Bases.operation_base (Bases.call_bases_in (View.functions functions.now.all.now)) known.now.all.items
        (View.operation op.now) cell) }
{
    match op {
        Operation::Genarray { shape, default, .. } => {
            let shape = base_of(shape, alloc, functions, known)?;
            let base = maybe_base(default, cell, alloc, functions, known)?;
            Ok(where_holds(may_be(Base::Int, shape), base))
        }
        Operation::Modarray { array, .. } => base_of(array, alloc, functions, known),
        Operation::Fold { op, neutral, .. } => {
            let base = base_of(neutral, alloc, functions, known)?;
            Ok(where_holds(operands_fit(*op, base, base), base))
        }
    }
}

/// The bases of a generator: whether its bounds, step and width are int, and its cell's base.
#[derive(Clone, Copy, Debug)]
pub struct Given {
    pub are_int: bool,
    pub cell: Option<Base>,
}

// The bases of generators, each of which is looked at once.
#[cycle(bases)]
fn all_given(
    gs: &[Generator],
    alloc: Global,
    functions: &Functions<'_>,
    known: &BoundNames<'_>,
) -> Result<Vec<Given>, Memory>
    ensures { IfOk result (λ given. given.items
        ≡ Generators.all_given (Bases.call_bases_in (View.functions functions.now.all.now)) known.now.all.items (View.generators gs.now)) }
{
    let mut given = Vec::new(alloc);
    for g in gs {
        let one = one_given(g, alloc, functions, known)?;
        given.push(one)?;
    }
    Ok(given)
}

#[cycle(bases)]
fn one_given(
    g: &Generator,
    alloc: Global,
    functions: &Functions<'_>,
    known: &BoundNames<'_>,
) -> Result<Given, Memory>
    ensures { IfOk result (λ given. given
        ≡ Generators.one_given (Bases.call_bases_in (View.functions functions.now.all.now)) known.now.all.items (View.generator g.now)) }
{
    let int = Some(Base::Int);
    let lower = bound_base(&g.lower, alloc, functions, known)?;
    let upper = bound_base(&g.upper, alloc, functions, known)?;
    let step = maybe_base(&g.step, int, alloc, functions, known)?;
    let width = maybe_base(&g.width, int, alloc, functions, known)?;
    let cell = base_of(&g.cell, alloc, functions, known)?;
    Ok(Given {
        are_int: are_int(lower, upper, step, width),
        cell,
    })
}

// The base of the first generator's cell, and int without a generator.
fn first_cell(given: &[Given]) -> Option<Base>
    ensures { result ≡ Generators.first_cell given.now }
{
    match given {
        [] => Some(Base::Int),
        [first, ..] => first.cell,
    }
}

// The base of a with-loop whose cells need this one.
fn with_base(given: &[Given], wanted: Option<Base>) -> Option<Base>
    ensures { result ≡ Generators.fitting wanted given.now }
{
    for one in given {
        if !(one.are_int && may_match(wanted, one.cell)) {
            return None;
        }
    }
    wanted
}

fn are_int(
    lower: Option<Base>,
    upper: Option<Base>,
    step: Option<Base>,
    width: Option<Base>,
) -> bool
    ensures { result ≡ Bases.are_int lower upper step width }
{
    may_be(Base::Int, lower)
        && may_be(Base::Int, upper)
        && may_be(Base::Int, step)
        && may_be(Base::Int, width)
}

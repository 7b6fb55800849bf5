//! Values of literal variables.

ghost use Rattle.std.specs.Prelude.{◌≡◌, Ok, IfOk, Result};
ghost use Rattle.sac_base.specs.Arrays.{ArrayValue};
ghost use Rattle.sac_base.specs.Operators.{binary as binary_value};
ghost use Rattle.sac_base.specs.declared.faults.FaultKind.{FaultKind as Kind};
ghost use Rattle.array_ops.specs.Answers.{Gives};
ghost use Rattle.core_ir.specs.Terms.{PlainTerm};
ghost use Rattle.core_facts.specs.Facts.{is_small_shape, is_sum as is_sum_op, plain_literal, shape_value, small as small_value};
ghost use Rattle.fact_table.specs.Table.{fact_of, facts_of};
ghost use Rattle.plain_facts.specs.Literals.{checked_of, combined_of, negated_of, AreScalars};

use array_ops::{ArrayError, binary, literal, unary};
use core_ir::Var;
use fact_table::shapes::common_shape;
use fact_table::{FactTable, Known};
use sac_base::{Array, ArrayType, Base, Memory, Op, Shape, contains, copy_array};
use std::alloc::Global;

// The most elements of a value that is kept.
const MOST: usize = 8;

/// The same value.
pub fn copy_literal(literal: &Option<Array>) -> Result<Option<Array>, Memory>
    ensures { IfOk result (λ copy. copy ≡ literal.now) }
{
    match literal {
        Some(array) => Ok(Some(copy_array(array)?)),
        None => Ok(None),
    }
}

/// The negation of a literal value.
pub fn negated_literal(alloc: Global, op: Op, x: &Option<Array>) -> Result<Option<Array>, Memory>
    ensures { IfOk result (λ value. value ≡ negated_of op x.now) }
{
    match x {
        Some(array) if op == Op::Neg && is_small(array.shape()) => {
            Ok(Some(unary(alloc, op, array)?))
        }
        _ => Ok(None),
    }
}

/// The sum, the difference or the product of two literal values, one of which is a constant.
pub fn combined_literal(
    alloc: Global,
    op: Op,
    x: &Known,
    y: &Known,
) -> Result<Option<Array>, Memory>
    ensures { IfOk result (λ value. value ≡ combined_of op (fact_of x.now) (fact_of y.now)) }
{
    if !is_sum(op) || !(x.constant || y.constant) {
        return Ok(None);
    }
    match &x.literal {
        Some(left) => match &y.literal {
            Some(right) => small_binary(alloc, op, left, right),
            None => Ok(None),
        },
        None => Ok(None),
    }
}

fn is_sum(op: Op) -> bool
    ensures { result ≡ is_sum_op op }
{
    matches!(op, Op::Add | Op::Sub | Op::Mul)
}

// An operator of two arrays, where it gives at most 8 elements.
fn small_binary(alloc: Global, op: Op, a: &Array, b: &Array) -> Result<Option<Array>, Memory>
    ensures { IfOk result (λ value. value ≡ small_value (binary_value op a.now b.now)) }
{
    match common_shape(a.shape(), b.shape()) {
        Some(shape) if is_small(&shape) => small(binary(alloc, op, a, b)),
        _ => Ok(None),
    }
}

/// The vector of literal scalars, at most 8.
pub fn vector_literal(alloc: Global, xs: &[Var], facts: &FactTable) -> Result<Option<Array>, Memory>
    ensures { IfOk result (λ value. value ≡ plain_literal (PlainTerm.Literal xs.now) (facts_of facts.now)) }
{
    if xs.len() > MOST {
        return Ok(None);
    }
    match scalars_of(alloc, xs, facts)? {
        Some(scalars) => small(literal(alloc, &scalars)),
        None => Ok(None),
    }
}

// The values of variables, where all are literal scalars.
fn scalars_of(alloc: Global, xs: &[Var], facts: &FactTable) -> Result<Option<Vec<Array>>, Memory>
    ensures { IfOk result (λ found. AreScalars (facts_of facts.now) xs.now found) }
{
    let mut scalars = Vec::new(alloc);
    for x in xs {
        match &facts.fact(*x).literal {
            Some(array) if array.shape().rank() == 0 => scalars.push(copy_array(array)?)?,
            _ => return Ok(None),
        }
    }
    Ok(Some(scalars))
}

/// The extents of a known shape.
pub fn shape_vector(alloc: Global, shape: &Option<Shape>) -> Result<Option<Array>, Memory>
    ensures { IfOk result (λ value. value ≡ shape_value shape.now) }
{
    match shape {
        Some(shape) => {
            let extents = Vec::from_slice(alloc, shape.extents())?;
            Ok(Some(Array::vector(alloc, Base::Int, extents)))
        }
        None => Ok(None),
    }
}

/// A literal value that the type contains.
pub fn checked_literal(ty: &ArrayType, x: &Option<Array>) -> Result<Option<Array>, Memory>
    ensures { IfOk result (λ value. value ≡ checked_of ty.now x.now) }
{
    match x {
        Some(array) if contains(ty, array) => Ok(Some(copy_array(array)?)),
        _ => Ok(None),
    }
}

// The array of an answer, where it is no fault and has at most 8 elements.
fn small(answer: Result<Array, ArrayError>) -> Result<Option<Array>, Memory>
    ensures { (meant : Result ArrayValue Kind) → Gives answer meant → IfOk result (λ value. value ≡ small_value meant) }
{
    match answer {
        Ok(array) if is_small(array.shape()) => Ok(Some(array)),
        Err(ArrayError::Memory) => Err(Memory),
        _ => Ok(None),
    }
}

// A scalar, or a vector of at most 8 elements.
fn is_small(shape: &Shape) -> bool
    ensures { result ≡ is_small_shape shape.now }
{
    let extents = shape.extents();
    match extents.len() {
        0 => true,
        1 => extents[0] as usize <= MOST,
        _ => false,
    }
}

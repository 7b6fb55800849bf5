//! What is known of a right side without blocks and calls.

ghost use Rattle.std.specs.Prelude.{◌≡◌, IfOk};
ghost use Rattle.core_ir.specs.View.{right_term};
ghost use Rattle.fact_table.specs.Table.{fact_of, facts_of};
ghost use Rattle.plain_facts.specs.Rights.{fact_of_right, right_shape, right_literal};

use crate::literals::{
    checked_literal, combined_literal, copy_literal, negated_literal, shape_vector, vector_literal,
};
use crate::rows::{known_shape, row_shape};
use core_ir::Right;
use fact_table::shapes::{
    both_shapes, rank_shape, scalar_shape, selected_shape, shape_literal, type_shape,
};
use fact_table::{FactTable, Known};
use sac_base::{Array, Memory, Shape, copy_array};
use std::alloc::Global;

/// What is known of the value of a right side without blocks and calls, from what is known of its variables. Of any other right side nothing is.
///
/// # Errors
///
/// `Memory`: there is none for the literal value.
pub fn plain_fact(alloc: Global, right: &Right, facts: &FactTable) -> Result<Known, Memory>
    ensures { IfOk result (λ known. fact_of known ≡ fact_of_right (right_term right.now) (facts_of facts.now)) }
{
    Ok(Known {
        shape: shape_of(alloc, right, facts),
        literal: literal_of(alloc, right, facts)?,
        constant: matches!(right, Right::Const(_)),
    })
}

fn shape_of(alloc: Global, right: &Right, facts: &FactTable) -> Option<Shape>
    ensures { result ≡ right_shape (right_term right.now) (facts_of facts.now) }
{
    match right {
        Right::Const(array) => Some(array.shape().copy()),
        Right::Copy(x) | Right::Unary(_, x) | Right::Replace(x, _, _) => known_shape(facts, *x),
        Right::Binary(_, x, y) => both_shapes(&facts.fact(*x).shape, &facts.fact(*y).shape),
        Right::Literal(xs) => row_shape(alloc, xs, facts),
        Right::Dim(x) => scalar_shape(alloc, &facts.fact(*x).shape),
        Right::ShapeOf(x) => rank_shape(alloc, &facts.fact(*x).shape),
        Right::Reshape(x, _) => shape_literal(alloc, &facts.fact(*x).literal),
        Right::Select(x, y) => selected_shape(&facts.fact(*x).shape, &facts.fact(*y).shape),
        Right::Check(x, ty) => type_shape(&ty.part, &facts.fact(*x).shape),
        _ => None,
    }
}

fn literal_of(alloc: Global, right: &Right, facts: &FactTable) -> Result<Option<Array>, Memory>
    ensures { IfOk result (λ literal. literal ≡ right_literal (right_term right.now) (facts_of facts.now)) }
{
    match right {
        Right::Const(array) => Ok(Some(copy_array(array)?)),
        Right::Copy(x) => copy_literal(&facts.fact(*x).literal),
        Right::Unary(op, x) => negated_literal(alloc, *op, &facts.fact(*x).literal),
        Right::Binary(op, x, y) => combined_literal(alloc, *op, facts.fact(*x), facts.fact(*y)),
        Right::Literal(xs) => vector_literal(alloc, xs, facts),
        Right::ShapeOf(x) => shape_vector(alloc, &facts.fact(*x).shape),
        Right::Check(x, ty) => checked_literal(ty, &facts.fact(*x).literal),
        _ => Ok(None),
    }
}

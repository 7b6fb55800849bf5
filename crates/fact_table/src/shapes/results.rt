//! Known shapes of results, where the shapes of the operands may be unknown.

ghost use Rattle.std.specs.Prelude.{◌≡◌};
ghost use Rattle.sac_base.specs.Operators.{common_shape as common};
ghost use Rattle.core_facts.specs.Facts.{both_shapes as both, one_shape as same, type_shape as typed, shape_literal as literal_shape, rank_of, is_scalar_of};
ghost use Rattle.core_facts.specs.Facts.{selected_shape as selected, index_count as count_of, rest_of as behind};

use sac_base::{Array, Part, Shape, part_has, same_shape};
use std::alloc::Global;

/// The shape of an operator's result: that of both operands, or that of the one that is no scalar. There is none where they differ otherwise.
pub fn common_shape(a: &Shape, b: &Shape) -> Option<Shape>
    ensures { result ≡ common a.now b.now }
{
    if a.rank() == 0 {
        Some(b.copy())
    } else if b.rank() == 0 || same_shape(a, b) {
        Some(a.copy())
    } else {
        None
    }
}

/// The same, where one of them may be unknown.
pub fn both_shapes(a: &Option<Shape>, b: &Option<Shape>) -> Option<Shape>
    ensures { result ≡ both a.now b.now }
{
    match a {
        Some(a) => match b {
            Some(b) => common_shape(a, b),
            None => None,
        },
        None => None,
    }
}

/// The shape that both have, where both are known and equal.
pub fn one_shape(a: &Option<Shape>, b: &Option<Shape>) -> Option<Shape>
    ensures { result ≡ same a.now b.now }
{
    match a {
        Some(a) => match b {
            Some(b) => {
                if same_shape(a, b) {
                    Some(a.copy())
                } else {
                    None
                }
            }
            None => None,
        },
        None => None,
    }
}

/// The shape of what a type lets through.
pub fn type_shape(part: &Part, known: &Option<Shape>) -> Option<Shape>
    ensures { result ≡ typed part.now known.now }
{
    match known {
        None => match part {
            Part::Known(shape) => Some(shape.copy()),
            _ => None,
        },
        Some(shape) => match part {
            Part::Known(only) => Some(only.copy()),
            _ => {
                if part_has(part, shape) {
                    Some(shape.copy())
                } else {
                    None
                }
            }
        },
    }
}

/// The shape of the vector of an array's extents.
pub fn rank_shape(alloc: Global, known: &Option<Shape>) -> Option<Shape>
    ensures { result ≡ rank_of known.now }
{
    match known {
        Some(shape) => Some(Shape::vector(alloc, shape.rank() as i32)),
        None => None,
    }
}

/// The shape of a number that an array gives.
pub fn scalar_shape(alloc: Global, known: &Option<Shape>) -> Option<Shape>
    ensures { result ≡ is_scalar_of known.now }
{
    match known {
        Some(_) => Some(Shape::empty(alloc)),
        None => None,
    }
}

/// The shape of the part of an array at an index.
pub fn selected_shape(array: &Option<Shape>, index: &Option<Shape>) -> Option<Shape>
    ensures { result ≡ selected array.now index.now }
{
    match array {
        Some(array) => match index {
            Some(index) => rest_of(array, index_count(index)),
            None => None,
        },
        None => None,
    }
}

// How many components an index of this shape has.
#[tactic(auto, using(crate::proofs::shapes::Counts::scalar_counts, crate::proofs::shapes::Counts::vector_counts, crate::proofs::shapes::Counts::others_count))]
fn index_count(index: &Shape) -> Option<usize>
    ensures { result ≡ count_of index.now }
{
    let extents = index.extents();
    if index.rank() == 0 {
        Some(1)
    } else if index.rank() == 1 {
        Some(extents[0].unsigned_abs() as usize)
    } else {
        None
    }
}

fn rest_of(shape: &Shape, count: Option<usize>) -> Option<Shape>
    ensures { result ≡ behind shape.now count }
{
    match count {
        Some(n) => {
            if n <= shape.rank() {
                Some(shape.rest(n))
            } else {
                None
            }
        }
        None => None,
    }
}

/// The shape that a literal vector gives to what is reshaped by it.
pub fn shape_literal(alloc: Global, literal: &Option<Array>) -> Option<Shape>
    ensures { result ≡ literal_shape literal.now }
{
    match literal {
        Some(array) => {
            if array.shape().rank() == 1 {
                Shape::from_extents(alloc, array.cells())
            } else {
                None
            }
        }
        None => None,
    }
}

//! What a table knows of single variables, and the shape of an array literal.

ghost use Rattle.std.specs.Prelude.{◌≡◌};
ghost use Rattle.core_ir.specs.Terms.{PlainTerm};
ghost use Rattle.core_facts.specs.Facts.{plain_shape, row_of as row_from};
ghost use Rattle.fact_table.specs.Table.{facts_of};

use core_ir::Var;
use fact_table::FactTable;
use fact_table::shapes::one_shape;
use sac_base::Shape;
use std::alloc::Global;

/// The shape of an array literal of these variables, where all of them have the same.
pub fn row_shape(alloc: Global, xs: &[Var], facts: &FactTable) -> Option<Shape>
    ensures { result ≡ plain_shape (PlainTerm.Literal xs.now) (facts_of facts.now) }
{
    let Some(first) = xs.first() else {
        return Some(Shape::vector(alloc, 0));
    };
    let mut shared = known_shape(facts, *first);
    for k in 1..xs.len() {
        shared = one_shape(&shared, &facts.fact(xs[k]).shape);
    }
    row_of(alloc, xs.len(), &shared)
}

// So many rows of a shape, where an array may have that shape.
fn row_of(alloc: Global, count: usize, shape: &Option<Shape>) -> Option<Shape>
    ensures { result ≡ row_from count shape.now }
{
    let Some(shape) = shape else {
        return None;
    };
    match i32::try_from(count) {
        Ok(count) => Shape::vector(alloc, count).joined(shape),
        Err(_) => None,
    }
}

/// The shape of a variable, where it is known.
pub fn known_shape(facts: &FactTable, x: Var) -> Option<Shape>
    ensures { result ≡ (facts_of facts.now x).shape }
{
    match &facts.fact(x).shape {
        Some(shape) => Some(shape.copy()),
        None => None,
    }
}

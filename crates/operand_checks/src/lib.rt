//! What a known literal or shape tells of an operation: that nothing is divided by zero, that a literal is an array, that an index is in range.
#![tactic(auto)]

ghost use Rattle.std.specs.Prelude.{◌≡◌};
ghost use Rattle.std.specs.List.{list_all};
ghost use Rattle.core_loops.specs.Indices.{at_literal as literal_is_index};
ghost use Rattle.core_loops.specs.Indices.{is_division as divides, may_be_row as row_fits, no_zero as none_is_zero};
ghost use Rattle.operand_checks.specs.Numbers.{are_components, is_not_zero as is_not_zero_value};

use sac_base::{Array, Op, Shape, elements};

/// Whether an operation divides.
pub fn is_division(op: Op) -> bool
    ensures { result ≡ divides op }
{
    matches!(op, Op::Div | Op::Rem)
}

/// Whether a literal is known that has no element 0.
pub fn no_zero(literal: &Option<Array>) -> bool
    ensures { result ≡ none_is_zero literal.now }
{
    match literal {
        Some(array) => has_no_zero(array.cells()),
        None => false,
    }
}

fn has_no_zero(cells: &[i32]) -> bool
    ensures { result ≡ list_all is_not_zero_value cells.now }
{
    cells.iter().all(|cell| is_not_zero(cell))
}

fn is_not_zero(cell: &i32) -> bool
    ensures { result ≡ is_not_zero_value cell.now }
{
    *cell != 0
}

/// Whether a shape is known that an array may have.
pub fn may_be_row(shape: &Option<Shape>) -> bool
    ensures { result ≡ row_fits shape.now }
{
    match shape {
        Some(shape) => shape.rank() <= Shape::MOST && elements(shape).is_some(),
        None => false,
    }
}

/// Whether a literal is known that is an index of an array of a shape.
pub fn at_literal(shape: &Shape, literal: &Option<Array>) -> bool
    ensures { result ≡ literal_is_index shape.now literal.now }
{
    match literal {
        Some(array) => array.shape().rank() <= 1 && is_index(shape.extents(), array.cells()),
        None => false,
    }
}

/// Whether an array with these extents has a part at an index vector.
fn is_index(extents: &[i32], index: &[i32]) -> bool
    ensures { result ≡ are_components extents.now index.now }
{
    match index.split_first() {
        None => true,
        Some((component, inner)) => match extents.split_first() {
            None => false,
            Some((extent, others)) => {
                0 <= *component && *component < *extent && is_index(others, inner)
            }
        },
    }
}

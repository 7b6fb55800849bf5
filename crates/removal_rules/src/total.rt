//! Right sides that are known to have a value.

ghost use Rattle.std.specs.Prelude.{◌≡◌, []};
ghost use Rattle.core_ir.specs.View.{right_term};
ghost use Rattle.core_loops.specs.Indices.{Other, in_range as is_in_range};
ghost use Rattle.fact_table.specs.Table.{fact_of, facts_of};
ghost use Rattle.removal_rules.specs.Total.{removable_shaped};

use core_ir::Right;
use fact_table::FactTable;
use operand_checks::{at_literal, is_division, may_be_row, no_zero};
use sac_base::{Array, Shape};

/// Whether a right side has a value, where the shape of its value is known to be this.
pub fn has_value(right: &Right, shape: &Option<Shape>, facts: &FactTable) -> bool
    ensures { result ≡ removable_shaped shape.now (right_term right.now) (facts_of facts.now) }
{
    match right {
        Right::Const(_) | Right::Copy(_) => true,
        Right::Unary(_, _) | Right::Dim(_) | Right::ShapeOf(_) => true,
        Right::Binary(op, _, y) => {
            shape.is_some() && (!is_division(*op) || no_zero(&facts.fact(*y).literal))
        }
        Right::Literal(_) => may_be_row(shape),
        Right::Select(x, y) => in_range(&facts.fact(*x).shape, &facts.fact(*y).literal),
        _ => false,
    }
}

/// Whether a literal index is in range.
fn in_range(shape: &Option<Shape>, literal: &Option<Array>) -> bool
    ensures { result ≡ is_in_range [] shape.now Other literal.now }
{
    match shape {
        Some(shape) => at_literal(shape, literal),
        None => false,
    }
}

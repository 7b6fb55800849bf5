//! Right sides without blocks that never fault.

ghost use Rattle.std.specs.Prelude.{◌≡◌, [], ◌∷◌, IfOk};
ghost use Rattle.core_ir.specs.View.{right_term};
ghost use Rattle.core_loops.specs.Indices.{in_range as is_in_range};
ghost use Rattle.fact_table.specs.Table.{fact_of, facts_of};
ghost use Rattle.index_table.specs.Table.{index_of, indices_of};
ghost use Rattle.plain_facts.specs.Rights.{fact_of_right};
ghost use Rattle.total_cells.specs.Rights.{plain_total, total_shaped};
ghost use Rattle.total_cells.specs.Totals.{known_if, seen};

use crate::inside::is_inside;
use core_ir::{Right, Var};
use fact_table::{FactTable, Known};
use index_table::{IndexTable, Relation};
use operand_checks::{at_literal, is_division, may_be_row, no_zero};
use plain_facts::plain_fact;
use sac_base::{Array, Grid, Memory, Shape};
use std::alloc::Global;

/// What is known of the value of a right side without blocks, where it never faults. There is none for any other right side.
pub fn plain_values(
    alloc: Global,
    right: &Right,
    grid: &Grid,
    facts: &FactTable,
    indices: &IndexTable,
) -> Result<Option<Vec<Known>>, Memory>
    ensures { IfOk result (λ found. seen found ≡ known_if (plain_total grid.now (right_term right.now) (facts_of facts.now) (indices_of indices.now))
        (fact_of_right (right_term right.now) (facts_of facts.now) ∷ [])) }
{
    let known = plain_fact(alloc, right, facts)?;
    if !is_shaped_total(right, &known.shape, grid, facts, indices) {
        return Ok(None);
    }
    let mut values = Vec::new(alloc);
    values.push(known)?;
    Ok(Some(values))
}

/// Whether a right side without blocks never faults, where the shape of its value is known to be this.
fn is_shaped_total(
    right: &Right,
    shape: &Option<Shape>,
    grid: &Grid,
    facts: &FactTable,
    indices: &IndexTable,
) -> bool
    ensures { result ≡ total_shaped grid.now shape.now (right_term right.now) (facts_of facts.now) (indices_of indices.now) }
{
    match right {
        Right::Const(_) | Right::Copy(_) => true,
        Right::Unary(_, _) | Right::Dim(_) | Right::ShapeOf(_) => shape.is_some(),
        Right::Binary(op, _, y) => {
            shape.is_some() && (!is_division(*op) || no_zero(&facts.fact(*y).literal))
        }
        Right::Literal(_) => may_be_row(shape),
        Right::Select(x, y) => in_range(
            grid,
            &facts.fact(*x).shape,
            indices.at(*y),
            &facts.fact(*y).literal,
        ),
        _ => false,
    }
}

/// Whether a selection is in range at each member of the grid.
fn in_range(grid: &Grid, shape: &Option<Shape>, index: &Relation, literal: &Option<Array>) -> bool
    ensures { result ≡ is_in_range grid.now shape.now (index_of index.now) literal.now }
{
    let Some(shape) = shape else {
        return false;
    };
    if at_literal(shape, literal) {
        return true;
    }
    match index {
        Relation::Plus(numbers) => is_inside(grid, shape, numbers),
        _ => false,
    }
}

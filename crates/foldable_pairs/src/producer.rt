//! Parted loops whose cells others may select.

ghost use Rattle.std.specs.Prelude.{◌≡◌, ◌↔◌, IsTrue, IfOk, OnOk, map};
ghost use Rattle.core_ir.specs.View.{block_term, part_term};
ghost use Rattle.core_loops.specs.Indices.{is_scalar_shape};
ghost use Rattle.core_loops.specs.Pairs.{TotalParts, Makes, one_scalar};
ghost use Rattle.fact_table.specs.Table.{fact_of, facts_of};
ghost use Rattle.plain_facts.specs.Called.{shapes_of};
ghost use Rattle.foldable_pairs.specs.Parts.{terms};
ghost use Rattle.foldable_pairs.specs.Pairs.{CanProduce, GivesScalar};

use core_ir::{Block, CorePart, PartedOp, Var};
use fact_table::{FactTable, Known};
use index_table::IndexTable;
use plain_facts::CalledShapes;
use sac_base::{Grid, Memory, Shape};
use std::alloc::Global;
use total_cells::body_results;

/// A parted loop, bound to a variable, that a fold may take its cells from.
#[derive(Clone, Copy)]
pub struct Producer<'a> {
    pub var: Var,
    pub frame: &'a Grid,
    pub parts: &'a [CorePart],
}

/// Whether a parted loop can be the producer of a foldable pair, whatever its consumer is: it is no fold, and each part never faults and gives a scalar.
///
/// The table has what is known of variables before the loop, and is left as it was.
///
/// # Errors
///
/// `Memory`: there is none for what is known of a variable.
pub fn can_produce(
    alloc: Global,
    op: PartedOp,
    parts: &[CorePart],
    called: &CalledShapes,
    facts: &mut FactTable,
) -> Result<bool, Memory>
    ensures can { IfOk result (λ can. IsTrue can ↔ CanProduce (shapes_of called.now) (facts_of facts.old) op (terms parts.now)) }
    ensures facts { OnOk result (facts.new ≡ facts.old) }
{
    if !makes_cells(op) {
        return Ok(false);
    }
    are_total(alloc, parts, called, facts)
}

fn makes_cells(op: PartedOp) -> bool
    ensures { IsTrue result ↔ Makes op }
{
    match op {
        PartedOp::Fold { .. } => false,
        _ => true,
    }
}

/// Whether each part never faults, and gives a scalar.
fn are_total(
    alloc: Global,
    parts: &[CorePart],
    called: &CalledShapes,
    facts: &mut FactTable,
) -> Result<bool, Memory>
    ensures total { IfOk result (λ total. IsTrue total ↔ TotalParts (shapes_of called.now) (facts_of facts.old) (terms parts.now)) }
    ensures facts { OnOk result (facts.new ≡ facts.old) }
{
    for part in parts {
        if !is_total(alloc, part, called, facts)? {
            return Ok(false);
        }
    }
    Ok(true)
}

/// Whether a part never faults, and gives a scalar.
fn is_total(
    alloc: Global,
    part: &CorePart,
    called: &CalledShapes,
    facts: &mut FactTable,
) -> Result<bool, Memory>
    ensures total { IfOk result (λ total. IsTrue total ↔ GivesScalar (shapes_of called.now) (facts_of facts.old)
        (part_term part.now).head.grid (part_term part.now).head.index (part_term part.now).body) }
    ensures facts { OnOk result (facts.new ≡ facts.old) }
{
    is_total_body(alloc, part.index, &part.grid, &part.body, called, facts)
}

/// Whether a body with this index never faults, and gives a scalar.
fn is_total_body(
    alloc: Global,
    index: Var,
    grid: &Grid,
    body: &Block,
    called: &CalledShapes,
    facts: &mut FactTable,
) -> Result<bool, Memory>
    ensures total { IfOk result (λ total. IsTrue total
        ↔ GivesScalar (shapes_of called.now) (facts_of facts.old) grid.now index (block_term body.now)) }
    ensures facts { OnOk result (facts.new ≡ facts.old) }
{
    let mut indices = IndexTable::new(alloc);
    match body_results(alloc, index, grid, body, called, facts, &mut indices)? {
        Some(values) => Ok(is_one_scalar(&values)),
        None => Ok(false),
    }
}

/// Whether there is one value, a scalar.
fn is_one_scalar(values: &[Known]) -> bool
    ensures { result ≡ one_scalar (map fact_of values.now) }
{
    match values.split_first() {
        Some((value, others)) => match others.split_first() {
            Some(_) => false,
            None => is_scalar(&value.shape),
        },
        None => false,
    }
}

fn is_scalar(shape: &Option<Shape>) -> bool
    ensures { result ≡ is_scalar_shape shape.now }
{
    match shape {
        Some(shape) => shape.rank() == 0,
        None => false,
    }
}

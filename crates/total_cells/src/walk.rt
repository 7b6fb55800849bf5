//! One walk over a body that tells whether it never faults.

ghost use Rattle.std.specs.Prelude.{◌≡◌, ◌-◌, ◌&&◌, ◌∷◌, [], Some, Ok, true, IfOk, OnOk, replicate, pos, map, drop, length};
ghost use Rattle.core_ir.specs.Terms.{BlockTerm, chain};
ghost use Rattle.core_ir.specs.View.{block_term, let_term, right_term};
ghost use Rattle.core_facts.specs.Facts.{block_facts, note, note_all, right_facts, shape_fact};
ghost use Rattle.core_loops.specs.Indices.{is_scalar_shape, learn_index as learned_index, note_index, total_block, total_right, Plus};
ghost use Rattle.fact_table.specs.Table.{fact_of, facts_of};
ghost use Rattle.index_table.specs.Table.{index_of, indices_of};
ghost use Rattle.plain_facts.specs.Called.{shapes_of};
ghost use Rattle.total_cells.specs.Totals.{known_if, seen};

use crate::plain::plain_values;
use core_ir::{Block, Let, Right, Var};
use fact_table::{FactTable, Known};
use index_table::{IndexTable, Relation, learn_relation};
use plain_facts::{CalledShapes, common_facts, known_of, learn_all, learn_index};
use sac_base::{Grid, Memory, Shape};
use std::alloc::Global;

/// Whether a block never faults at any member of a grid.
///
/// The tables have what is known of variables before the block, and are left as they were.
///
/// # Errors
///
/// `Memory`: there is none for what is known of a variable.
pub fn is_total(
    alloc: Global,
    block: &Block,
    called: &CalledShapes,
    grid: &Grid,
    facts: &mut FactTable,
    indices: &mut IndexTable,
) -> Result<bool, Memory>
    ensures total { IfOk result (λ total. total
        ≡ total_block (shapes_of called.now) grid.now (block_term block.now) (facts_of facts.old) (indices_of indices.old)) }
    ensures facts { OnOk result (facts.new ≡ facts.old) }
    ensures indices { OnOk result (indices.new ≡ indices.old) }
{
    let found = total_results(alloc, block, called, grid, facts, indices)?;
    Ok(found.is_some())
}

/// What is known of the results of a block, where it never faults at any member of a grid. There is nothing exactly where it may fault.
///
/// The tables have what is known of variables before the block, and are left as they were.
///
/// # Errors
///
/// `Memory`: there is none for what is known of a variable.
#[cycle(total)]
pub fn total_results(
    alloc: Global,
    block: &Block,
    called: &CalledShapes,
    grid: &Grid,
    facts: &mut FactTable,
    indices: &mut IndexTable,
) -> Result<Option<Vec<Known>>, Memory>
    ensures known { IfOk result (λ found. seen found
        ≡ known_if (total_block (shapes_of called.now) grid.now (block_term block.now) (facts_of facts.old) (indices_of indices.old))
        (block_facts (shapes_of called.now) (block_term block.now) (facts_of facts.old))) }
    ensures facts { OnOk result (facts.new ≡ facts.old) }
    ensures indices { OnOk result (indices.new ≡ indices.old) }
{
    let facts_before = facts.mark();
    let indices_before = indices.mark();
    let found = if pass_bindings(alloc, &block.lets, called, grid, facts, indices)? {
        Some(known_of(alloc, facts, &block.results)?)
    } else {
        None
    };
    facts.undo(facts_before);
    indices.undo(indices_before);
    Ok(found)
}

/// Learns what bindings tell, up to the first that may fault. True exactly where there is none.
///
/// # Errors
///
/// `Memory`: there is none for what is known of a variable.
#[cycle(total)]
pub fn pass_bindings(
    alloc: Global,
    bindings: &[Let],
    called: &CalledShapes,
    grid: &Grid,
    facts: &mut FactTable,
    indices: &mut IndexTable,
) -> Result<bool, Memory>
    ensures total { IfOk result (λ passed. (end : BlockTerm)
        → total_block (shapes_of called.now) grid.now (chain (map let_term bindings.now) end) (facts_of facts.old) (indices_of indices.old)
        ≡ (passed && total_block (shapes_of called.now) grid.now end (facts_of facts.new) (indices_of indices.new))) }
    ensures known { result ≡ Ok true → (end : BlockTerm)
        → block_facts (shapes_of called.now) (chain (map let_term bindings.now) end) (facts_of facts.old)
        ≡ block_facts (shapes_of called.now) end (facts_of facts.new) }
    ensures facts { OnOk result (drop (length facts.new - length facts.old) facts.new ≡ facts.old) }
    ensures indices { OnOk result (drop (length indices.new - length indices.old) indices.new ≡ indices.old) }
{
    for binding in bindings {
        if !pass_binding(alloc, binding, called, grid, facts, indices)? {
            return Ok(false);
        }
    }
    Ok(true)
}

/// Learns what a binding tells, if it never faults.
#[cycle(total)]
fn pass_binding(
    alloc: Global,
    binding: &Let,
    called: &CalledShapes,
    grid: &Grid,
    facts: &mut FactTable,
    indices: &mut IndexTable,
) -> Result<bool, Memory>
    ensures total { IfOk result (λ passed. passed
        ≡ total_right (shapes_of called.now) grid.now (let_term binding.now).right (facts_of facts.old) (indices_of indices.old)) }
    ensures known { result ≡ Ok true → facts_of facts.new ≡ note_all (facts_of facts.old) (let_term binding.now).targets
        (right_facts (shapes_of called.now) (let_term binding.now).right (facts_of facts.old)) }
    ensures beside { result ≡ Ok true → indices_of indices.new
        ≡ learned_index (length grid.now) (indices_of indices.old) (let_term binding.now).targets (let_term binding.now).right (facts_of facts.old) }
    ensures facts { OnOk result (drop (length facts.new - length facts.old) facts.new ≡ facts.old) }
    ensures indices { OnOk result (drop (length indices.new - length indices.old) indices.new ≡ indices.old) }
{
    match total_values(alloc, &binding.right, called, grid, facts, indices)? {
        Some(values) => {
            let axes = grid.axes().len();
            learn_relation(
                alloc,
                &binding.targets,
                &binding.right,
                axes,
                facts,
                indices,
            )?;
            learn_all(facts, &binding.targets, values)?;
            Ok(true)
        }
        None => Ok(false),
    }
}

/// What is known of the values of a right side, where it never faults.
#[cycle(total)]
fn total_values(
    alloc: Global,
    right: &Right,
    called: &CalledShapes,
    grid: &Grid,
    facts: &mut FactTable,
    indices: &mut IndexTable,
) -> Result<Option<Vec<Known>>, Memory>
    ensures known { IfOk result (λ found. seen found
        ≡ known_if (total_right (shapes_of called.now) grid.now (right_term right.now) (facts_of facts.old) (indices_of indices.old))
        (right_facts (shapes_of called.now) (right_term right.now) (facts_of facts.old))) }
    ensures facts { OnOk result (facts.new ≡ facts.old) }
    ensures indices { OnOk result (indices.new ≡ indices.old) }
{
    match right {
        Right::If { cond, yes, no } => {
            if !is_scalar(&facts.fact(*cond).shape) {
                return Ok(None);
            }
            let Some(first) = total_results(alloc, yes, called, grid, facts, indices)? else {
                return Ok(None);
            };
            let Some(second) = total_results(alloc, no, called, grid, facts, indices)? else {
                return Ok(None);
            };
            Ok(Some(common_facts(alloc, &first, &second)?))
        }
        other => plain_values(alloc, other, grid, facts, indices),
    }
}

/// Whether a shape is known to be that of a scalar.
fn is_scalar(shape: &Option<Shape>) -> bool
    ensures { result ≡ is_scalar_shape shape.now }
{
    match shape {
        Some(shape) => shape.rank() == 0,
        None => false,
    }
}

/// What is known of the results of a part's body, where it never faults: its index is a member of the grid, a vector of as many numbers as the grid has
/// axes. There is nothing exactly where it may fault.
///
/// The tables have what is known of variables before the part, and are left as they were.
///
/// # Errors
///
/// `Memory`: there is none for what is known of a variable.
pub fn body_results(
    alloc: Global,
    index: Var,
    grid: &Grid,
    body: &Block,
    called: &CalledShapes,
    facts: &mut FactTable,
    indices: &mut IndexTable,
) -> Result<Option<Vec<Known>>, Memory>
    ensures known { IfOk result (λ found. seen found
        ≡ known_if (total_block (shapes_of called.now) grid.now (block_term body.now)
        (note (facts_of facts.old) index (shape_fact (Some (length grid.now ∷ []))))
        (note_index (indices_of indices.old) index (Plus (replicate (length grid.now) (pos 0)))))
        (block_facts (shapes_of called.now) (block_term body.now) (note (facts_of facts.old) index (shape_fact (Some (length grid.now ∷ [])))))) }
    ensures facts { OnOk result (facts.new ≡ facts.old) }
    ensures indices { OnOk result (indices.new ≡ indices.old) }
{
    let facts_before = facts.mark();
    let indices_before = indices.mark();
    let axes = grid.axes().len();
    learn_index(alloc, facts, index, grid)?;
    indices.learn(index, Relation::Plus(zeros(alloc, axes)?))?;
    let found = total_results(alloc, body, called, grid, facts, indices)?;
    facts.undo(facts_before);
    indices.undo(indices_before);
    Ok(found)
}

fn zeros(alloc: Global, count: usize) -> Result<Vec<i32>, Memory>
    ensures { IfOk result (λ numbers. numbers.items ≡ replicate count (pos 0)) }
{
    let mut numbers = Vec::new(alloc);
    numbers.resize(count, 0)?;
    Ok(numbers)
}

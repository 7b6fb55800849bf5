//! One walk over a body that finds the selections from a producer.

ghost use Rattle.std.specs.Prelude.{◌≡◌, ◌-◌, ◌&&◌, ◌++◌, Ok, true, IfOk, OnOk, map, drop, length};
ghost use Rattle.std.specs.Option.{is_some};
ghost use Rattle.core_ir.specs.Terms.{BlockTerm, chain};
ghost use Rattle.core_ir.specs.View.{block_term, let_term, right_term};
ghost use Rattle.core_facts.specs.Facts.{block_facts, note_all, right_facts};
ghost use Rattle.core_loops.specs.Indices.{learn_index};
ghost use Rattle.core_loops.specs.Pairs.{offsets, offsets_right};
ghost use Rattle.core_uses.specs.Tests.{none_is};
ghost use Rattle.fact_table.specs.Table.{facts_of};
ghost use Rattle.index_table.specs.Table.{index_of, indices_of};
ghost use Rattle.plain_facts.specs.Called.{shapes_of};
ghost use Rattle.total_cells.specs.loop_selections.Selecting.{is_selecting, is_selecting_right, turns_select};
ghost use Rattle.total_cells.specs.loop_selections.Told.{known_if, seen, told};

use crate::loop_selections::plain::plain_values;
use core_ir::{Block, Let, Right, Var};
use core_uses::avoids_all;
use fact_table::{FactTable, Known};
use index_table::{IndexTable, learn_relation};
use plain_facts::{CalledShapes, common_facts, known_of, learn_all};
use sac_base::Memory;
use std::alloc::Global;

/// What is looked for: selections from a producer, in the body of a part of so many axes.
#[derive(Clone, Copy)]
pub struct Sought {
    pub producer: Var,
    pub axes: usize,
}

/// Adds the offsets of all selections from the producer in a block, in order, and gives what is known of the block's results. There is nothing exactly
/// where the producer is used in another way, or where there is a with-loop or a parted loop; then some offsets may have been added.
///
/// The tables have what is known of variables before the block, and are left as they were.
///
/// # Errors
///
/// `Memory`: there is none for an offset or for what is known of a variable.
#[cycle(selecting)]
pub fn selections(
    alloc: Global,
    block: &Block,
    sought: Sought,
    called: &CalledShapes,
    facts: &mut FactTable,
    indices: &mut IndexTable,
    found: &mut Vec<Option<Vec<i32>>>,
) -> Result<Option<Vec<Known>>, Memory>
    ensures known { IfOk result (λ values. seen values ≡ known_if (is_selecting sought.producer (block_term block.now))
        (block_facts (shapes_of called.now) (block_term block.now) (facts_of facts.old))) }
    ensures found { IfOk result (λ values. is_some values ≡ true → told found.new.items ≡ told found.old.items
        ++ offsets (shapes_of called.now) sought.producer sought.axes (block_term block.now) (facts_of facts.old) (indices_of indices.old)) }
    ensures facts { OnOk result (facts.new ≡ facts.old) }
    ensures indices { OnOk result (indices.new ≡ indices.old) }
{
    let facts_before = facts.mark();
    let indices_before = indices.mark();
    let passed = pass_bindings(alloc, &block.lets, sought, called, facts, indices, found)?;
    let values = known_results(alloc, passed, sought.producer, facts, &block.results)?;
    facts.undo(facts_before);
    indices.undo(indices_before);
    Ok(values)
}

/// Learns what bindings tell, up to the first that uses the producer in another way than in selections. True exactly where there is none.
#[cycle(selecting)]
fn pass_bindings(
    alloc: Global,
    bindings: &[Let],
    sought: Sought,
    called: &CalledShapes,
    facts: &mut FactTable,
    indices: &mut IndexTable,
    found: &mut Vec<Option<Vec<i32>>>,
) -> Result<bool, Memory>
    ensures selects { IfOk result (λ passed. (end : BlockTerm)
        → is_selecting sought.producer (chain (map let_term bindings.now) end) ≡ (passed && is_selecting sought.producer end)) }
    ensures known { result ≡ Ok true → (end : BlockTerm)
        → block_facts (shapes_of called.now) (chain (map let_term bindings.now) end) (facts_of facts.old)
        ≡ block_facts (shapes_of called.now) end (facts_of facts.new) }
    ensures found { result ≡ Ok true → (end : BlockTerm) → told found.new.items
        ++ offsets (shapes_of called.now) sought.producer sought.axes end (facts_of facts.new) (indices_of indices.new)
        ≡ told found.old.items ++ offsets (shapes_of called.now) sought.producer sought.axes (chain (map let_term bindings.now) end)
        (facts_of facts.old) (indices_of indices.old) }
    ensures facts { OnOk result (drop (length facts.new - length facts.old) facts.new ≡ facts.old) }
    ensures indices { OnOk result (drop (length indices.new - length indices.old) indices.new ≡ indices.old) }
{
    for binding in bindings {
        if !pass_binding(alloc, binding, sought, called, facts, indices, found)? {
            return Ok(false);
        }
    }
    Ok(true)
}

/// Learns what a binding tells, if it uses the producer in selections alone.
#[cycle(selecting)]
fn pass_binding(
    alloc: Global,
    binding: &Let,
    sought: Sought,
    called: &CalledShapes,
    facts: &mut FactTable,
    indices: &mut IndexTable,
    found: &mut Vec<Option<Vec<i32>>>,
) -> Result<bool, Memory>
    ensures selects { IfOk result (λ passed. passed ≡ is_selecting_right sought.producer (let_term binding.now).right) }
    ensures known { result ≡ Ok true → facts_of facts.new ≡ note_all (facts_of facts.old) (let_term binding.now).targets
        (right_facts (shapes_of called.now) (let_term binding.now).right (facts_of facts.old)) }
    ensures beside { result ≡ Ok true → indices_of indices.new
        ≡ learn_index sought.axes (indices_of indices.old) (let_term binding.now).targets (let_term binding.now).right (facts_of facts.old) }
    ensures found { result ≡ Ok true → told found.new.items ≡ told found.old.items
        ++ offsets_right (shapes_of called.now) sought.producer sought.axes (let_term binding.now).right (facts_of facts.old) (indices_of indices.old) }
    ensures facts { OnOk result (drop (length facts.new - length facts.old) facts.new ≡ facts.old) }
    ensures indices { OnOk result (drop (length indices.new - length indices.old) indices.new ≡ indices.old) }
{
    match right_values(alloc, &binding.right, sought, called, facts, indices, found)? {
        Some(values) => {
            learn_relation(
                alloc,
                &binding.targets,
                &binding.right,
                sought.axes,
                facts,
                indices,
            )?;
            learn_all(facts, &binding.targets, values)?;
            Ok(true)
        }
        None => Ok(false),
    }
}

/// What is known of the values of a right side that uses the producer in selections alone.
#[cycle(selecting)]
fn right_values(
    alloc: Global,
    right: &Right,
    sought: Sought,
    called: &CalledShapes,
    facts: &mut FactTable,
    indices: &mut IndexTable,
    found: &mut Vec<Option<Vec<i32>>>,
) -> Result<Option<Vec<Known>>, Memory>
    ensures known { IfOk result (λ values. seen values ≡ known_if (is_selecting_right sought.producer (right_term right.now))
        (right_facts (shapes_of called.now) (right_term right.now) (facts_of facts.old))) }
    ensures found { IfOk result (λ values. is_some values ≡ true → told found.new.items ≡ told found.old.items
        ++ offsets_right (shapes_of called.now) sought.producer sought.axes (right_term right.now) (facts_of facts.old) (indices_of indices.old)) }
    ensures facts { OnOk result (facts.new ≡ facts.old) }
    ensures indices { OnOk result (indices.new ≡ indices.old) }
{
    match right {
        Right::If { cond, yes, no } => {
            if !avoids_all(sought.producer, &[*cond]) {
                return Ok(None);
            }
            let Some(first) = selections(alloc, yes, sought, called, facts, indices, found)? else {
                return Ok(None);
            };
            let Some(second) = selections(alloc, no, sought, called, facts, indices, found)? else {
                return Ok(None);
            };
            Ok(Some(common_facts(alloc, &first, &second)?))
        }
        Right::Loop { start, .. } => {
            if !avoids_all(sought.producer, start) {
                return Ok(None);
            }
            if in_turns(alloc, right, sought, called, facts, indices, found)? {
                Ok(Some(Vec::new(alloc)))
            } else {
                Ok(None)
            }
        }
        Right::Call { group, args } => {
            if !avoids_all(sought.producer, args) {
                return Ok(None);
            }
            Ok(Some(called.facts(alloc, *group)?))
        }
        other => plain_values(alloc, other, sought.producer, facts, indices, found),
    }
}

/// The same of the two blocks of a loop, in which nothing is known of its parameters.
#[cycle(selecting)]
fn in_turns(
    alloc: Global,
    right: &Right,
    sought: Sought,
    called: &CalledShapes,
    facts: &mut FactTable,
    indices: &mut IndexTable,
    found: &mut Vec<Option<Vec<i32>>>,
) -> Result<bool, Memory>
    ensures selects { IfOk result (λ passed. passed ≡ turns_select sought.producer (right_term right.now)) }
    ensures found { result ≡ Ok true → told found.new.items ≡ told found.old.items
        ++ offsets_right (shapes_of called.now) sought.producer sought.axes (right_term right.now) (facts_of facts.old) (indices_of indices.old) }
    ensures facts { OnOk result (facts.new ≡ facts.old) }
    ensures indices { OnOk result (indices.new ≡ indices.old) }
{
    let Right::Loop {
        params,
        test,
        body,
        ..
    } = right
    else {
        return Ok(false);
    };
    let facts_before = facts.mark();
    let indices_before = indices.mark();
    // of a right side with blocks no relation is known
    learn_relation(alloc, params, right, sought.axes, facts, indices)?;
    learn_all(facts, params, Vec::new(alloc))?;
    let tested = selections(alloc, test, sought, called, facts, indices, found)?;
    let turned = selections(alloc, body, sought, called, facts, indices, found)?;
    facts.undo(facts_before);
    indices.undo(indices_before);
    Ok(tested.is_some() && turned.is_some())
}

/// What is known of the results of a block whose bindings are passed, where none of them is the producer.
fn known_results(
    alloc: Global,
    passed: bool,
    producer: Var,
    table: &FactTable,
    results: &[Var],
) -> Result<Option<Vec<Known>>, Memory>
    ensures { IfOk result (λ values. seen values ≡ known_if (passed && none_is producer results.now) (map (facts_of table.now) results.now)) }
{
    if passed && avoids_all(producer, results) {
        Ok(Some(known_of(alloc, table, results)?))
    } else {
        Ok(None)
    }
}

//! What is known of the values of blocks and right sides that stay as they are.

ghost use Rattle.std.specs.Prelude.{◌≡◌, ◌-◌, [], ◌∷◌, IfOk, OnOk, map, drop, length};
ghost use Rattle.core_ir.specs.View.{block_term, let_term, right_term};
ghost use Rattle.core_facts.specs.Facts.{block_facts, note_all, right_facts};
ghost use Rattle.fact_table.specs.Table.{fact_of, facts_of};
ghost use Rattle.plain_facts.specs.Called.{shapes_of};

use core_ir::{Block, Let, PartedLoop, Right};
use fact_table::{FactTable, Known};
use plain_facts::{CalledShapes, common_facts, known_of, learn_all, parted_shape, plain_fact};
use sac_base::Memory;
use std::alloc::Global;

/// What is known of a block's results. The table is left as it was.
#[cycle(knowing)]
fn block_values(
    alloc: Global,
    block: &Block,
    called: &CalledShapes,
    table: &mut FactTable,
) -> Result<Vec<Known>, Memory>
    ensures known { IfOk result (λ known. map fact_of known.items ≡ block_facts (shapes_of called.now) (block_term block.now) (facts_of table.old)) }
    ensures table { OnOk result (table.new ≡ table.old) }
{
    let before = table.mark();
    for binding in &block.lets {
        learn_binding(alloc, binding, called, table)?;
    }
    let known = known_of(alloc, table, &block.results)?;
    table.undo(before);
    Ok(known)
}

/// The table learns what a binding tells of its targets.
///
/// # Errors
///
/// `Memory`: there is none for what is known of a variable.
#[cycle(knowing)]
pub fn learn_binding(
    alloc: Global,
    binding: &Let,
    called: &CalledShapes,
    table: &mut FactTable,
) -> Result<(), Memory>
    ensures learned { OnOk result (facts_of table.new ≡ note_all (facts_of table.old) (let_term binding.now).targets
        (right_facts (shapes_of called.now) (let_term binding.now).right (facts_of table.old))) }
    ensures earlier { OnOk result (drop (length table.new - length table.old) table.new ≡ table.old) }
{
    let values = right_values(alloc, &binding.right, called, table)?;
    learn_all(table, &binding.targets, values)?;
    Ok(())
}

#[cycle(knowing)]
fn right_values(
    alloc: Global,
    right: &Right,
    called: &CalledShapes,
    table: &mut FactTable,
) -> Result<Vec<Known>, Memory>
    ensures known { IfOk result (λ known. map fact_of known.items ≡ right_facts (shapes_of called.now) (right_term right.now) (facts_of table.old)) }
    ensures table { OnOk result (table.new ≡ table.old) }
{
    match right {
        Right::If { yes, no, .. } => {
            let yes = block_values(alloc, yes, called, table)?;
            let no = block_values(alloc, no, called, table)?;
            common_facts(alloc, &yes, &no)
        }
        Right::Loop { .. } | Right::With(_) => Ok(Vec::new(alloc)),
        Right::Call { group, .. } => called.facts(alloc, *group),
        Right::Parted(parted) => parted_values(alloc, parted),
        plain => one(alloc, plain_fact(alloc, plain, table)?),
    }
}

fn parted_values(alloc: Global, parted: &PartedLoop) -> Result<Vec<Known>, Memory>
    ensures { IfOk result (λ known. map fact_of known.items ≡ right_facts (λ _. []) (right_term (Right.Parted parted.now)) (facts_of [])) }
{
    let shape = parted_shape(alloc, &parted.frame, &parted.cell, parted.op);
    one(alloc, Known::of_shape(shape))
}

fn one(alloc: Global, known: Known) -> Result<Vec<Known>, Memory>
    ensures { IfOk result (λ values. map fact_of values.items ≡ fact_of known ∷ []) }
{
    let mut values = Vec::new(alloc);
    values.push(known)?;
    Ok(values)
}

//! One walk over a block that finds the calls whose arguments have known shapes.

ghost use Rattle.std.specs.Prelude.{◌≡◌, ◌++◌, IfOk, OnOk, map, [], ◌∷◌};
ghost use Rattle.core_ir.specs.View.{block_term, right_term, with_term, parted_term, gen_term, part_term};
ghost use Rattle.core_facts.specs.Facts.{block_facts, right_facts};
ghost use Rattle.fact_table.specs.Table.{fact_of, facts_of};
ghost use Rattle.plain_facts.specs.Called.{shapes_of};
ghost use Rattle.known_calls.specs.Known.{known_in, known_right};
ghost use Rattle.known_calls.specs.Told.{told, known_gen, known_part};

use crate::calls::{KnownCall, note_call};
use core_ir::{Block, CoreGen, CorePart, PartedLoop, Right, WithLoop};
use fact_table::{FactTable, Known};
use plain_facts::{
    CalledShapes, common_facts, forget, forget_index, known_of, learn_all, learn_index,
    parted_shape, plain_fact,
};
use sac_base::Memory;
use std::alloc::Global;

/// Adds the calls in a block whose arguments have known shapes, and gives what is known of the block's results. The table is left as it was.
#[cycle(finding)]
pub fn find_in_block(
    alloc: Global,
    block: &Block,
    called: &CalledShapes,
    table: &mut FactTable,
    calls: &mut Vec<KnownCall>,
) -> Result<Vec<Known>, Memory>
    ensures calls { OnOk result (told calls.new.items ≡ told calls.old.items ++ known_in (shapes_of called.now) (block_term block.now) (facts_of table.old)) }
    ensures known { IfOk result (λ known. map fact_of known.items ≡ block_facts (shapes_of called.now) (block_term block.now) (facts_of table.old)) }
    ensures table { OnOk result (table.new ≡ table.old) }
{
    let before = table.mark();
    for binding in &block.lets {
        let values = find_in_right(alloc, &binding.right, called, table, calls)?;
        learn_all(table, &binding.targets, values)?;
    }
    let known = known_of(alloc, table, &block.results)?;
    table.undo(before);
    Ok(known)
}

#[cycle(finding)]
fn find_in_right(
    alloc: Global,
    right: &Right,
    called: &CalledShapes,
    table: &mut FactTable,
    calls: &mut Vec<KnownCall>,
) -> Result<Vec<Known>, Memory>
    ensures calls { OnOk result (told calls.new.items
        ≡ told calls.old.items ++ known_right (shapes_of called.now) (right_term right.now) (facts_of table.old)) }
    ensures known { IfOk result (λ known. map fact_of known.items ≡ right_facts (shapes_of called.now) (right_term right.now) (facts_of table.old)) }
    ensures table { OnOk result (table.new ≡ table.old) }
{
    match right {
        Right::If { yes, no, .. } => {
            let yes = find_in_block(alloc, yes, called, table, calls)?;
            let no = find_in_block(alloc, no, called, table, calls)?;
            common_facts(alloc, &yes, &no)
        }
        Right::Loop {
            params,
            test,
            body,
            ..
        } => {
            let outer = table.mark();
            forget(alloc, table, params)?;
            let _test = find_in_block(alloc, test, called, table, calls)?;
            let _body = find_in_block(alloc, body, called, table, calls)?;
            table.undo(outer);
            Ok(Vec::new(alloc))
        }
        Right::Call { group, args } => {
            note_call(alloc, *group, args, table, calls)?;
            called.facts(alloc, *group)
        }
        Right::With(w) => {
            find_in_with(alloc, w, called, table, calls)?;
            Ok(Vec::new(alloc))
        }
        Right::Parted(p) => find_in_parted(alloc, p, called, table, calls),
        plain => one(alloc, plain_fact(alloc, plain, table)?),
    }
}

#[cycle(finding)]
fn find_in_with(
    alloc: Global,
    with: &WithLoop,
    called: &CalledShapes,
    table: &mut FactTable,
    calls: &mut Vec<KnownCall>,
) -> Result<(), Memory>
    ensures calls { OnOk result (told calls.new.items ≡ told calls.old.items ++ known_right (shapes_of called.now) (with_term with.now) (facts_of table.old)) }
    ensures table { OnOk result (table.new ≡ table.old) }
{
    for generator in &with.gens {
        find_in_gen(alloc, generator, called, table, calls)?;
    }
    Ok(())
}

#[cycle(finding)]
fn find_in_gen(
    alloc: Global,
    generator: &CoreGen,
    called: &CalledShapes,
    table: &mut FactTable,
    calls: &mut Vec<KnownCall>,
) -> Result<(), Memory>
    ensures calls { OnOk result (told calls.new.items
        ≡ told calls.old.items ++ known_gen (shapes_of called.now) (gen_term generator.now) (facts_of table.old)) }
    ensures table { OnOk result (table.new ≡ table.old) }
{
    let outer = table.mark();
    forget_index(alloc, table, generator.index, &generator.names)?;
    let _results = find_in_block(alloc, &generator.body, called, table, calls)?;
    table.undo(outer);
    Ok(())
}

#[cycle(finding)]
fn find_in_parted(
    alloc: Global,
    parted: &PartedLoop,
    called: &CalledShapes,
    table: &mut FactTable,
    calls: &mut Vec<KnownCall>,
) -> Result<Vec<Known>, Memory>
    ensures calls { OnOk result (told calls.new.items
        ≡ told calls.old.items ++ known_right (shapes_of called.now) (parted_term parted.now) (facts_of table.old)) }
    ensures known { IfOk result (λ known. map fact_of known.items ≡ right_facts (shapes_of called.now) (parted_term parted.now) (facts_of table.old)) }
    ensures table { OnOk result (table.new ≡ table.old) }
{
    for part in &parted.parts {
        find_in_part(alloc, part, called, table, calls)?;
    }
    let shape = parted_shape(alloc, &parted.frame, &parted.cell, parted.op);
    one(alloc, Known::of_shape(shape))
}

#[cycle(finding)]
fn find_in_part(
    alloc: Global,
    part: &CorePart,
    called: &CalledShapes,
    table: &mut FactTable,
    calls: &mut Vec<KnownCall>,
) -> Result<(), Memory>
    ensures calls { OnOk result (told calls.new.items ≡ told calls.old.items ++ known_part (shapes_of called.now) (part_term part.now) (facts_of table.old)) }
    ensures table { OnOk result (table.new ≡ table.old) }
{
    let outer = table.mark();
    learn_index(alloc, table, part.index, &part.grid)?;
    let _results = find_in_block(alloc, &part.body, called, table, calls)?;
    table.undo(outer);
    Ok(())
}

// What is known of one value.
fn one(alloc: Global, known: Known) -> Result<Vec<Known>, Memory>
    ensures { IfOk result (λ all. map fact_of all.items ≡ fact_of known ∷ []) }
{
    let mut all = Vec::new(alloc);
    all.push(known)?;
    Ok(all)
}

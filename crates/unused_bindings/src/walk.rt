//! One walk over a block: what is known forward, what is used from the end.

ghost use Rattle.std.specs.Prelude.{◌≡◌, ◌-◌, IfOk, OnOk, map, drop, length};
ghost use Rattle.core_ir.specs.View.{block_term, let_term, right_term, with_term, gen_term, parted_term, part_term};
ghost use Rattle.core_facts.specs.Facts.{note_all, block_facts, right_facts};
ghost use Rattle.core_forms.specs.cleaning.Unused.{is_removable, swept, swept_right};
ghost use Rattle.fact_table.specs.Table.{fact_of, facts_of};
ghost use Rattle.plain_facts.specs.Called.{shapes_of};
ghost use Rattle.unused_bindings.specs.Swept.{swept_let, swept_gen, swept_part};

use crate::needed::needed_block;
use crate::right::{call, conditional, parted_loop, plain, repeated, with_loop};
use crate::swept::{SweptBlock, SweptGen, SweptLet, SweptPart, SweptRight};
use core_ir::{Block, CoreGen, CorePart, Let, PartedLoop, Right, WithLoop};
use fact_table::FactTable;
use plain_facts::{CalledShapes, forget, forget_index, known_of, learn_all, learn_index};
use removal_rules::add_head;
use sac_base::Memory;
use std::alloc::Global;

/// Takes the bindings out of a block whose variable is not used behind them and whose right side is known to have a value.
///
/// The table has what is known before the block, and is left as it was.
#[cycle(sweeping)]
pub fn in_block(
    alloc: Global,
    block: Block,
    called: &CalledShapes,
    table: &mut FactTable,
) -> Result<SweptBlock, Memory>
    ensures swept { IfOk result (λ new. block_term new.block ≡ swept (shapes_of called.now) (block_term block) (facts_of table.old)) }
    ensures known { IfOk result (λ new. map fact_of new.results.items ≡ block_facts (shapes_of called.now) (block_term block) (facts_of table.old)) }
    ensures table { OnOk result (table.new ≡ table.old) }
{
    let Block { lets, results } = block;
    let before = table.mark();
    let mut passed = Vec::new(alloc);
    for binding in lets {
        passed.push(pass_binding(alloc, binding, called, table)?)?;
    }
    let known = known_of(alloc, table, &results)?;
    table.undo(before);
    needed_block(alloc, passed, results, known)
}

/// The table learns what the right side tells of the targets.
#[cycle(sweeping)]
fn pass_binding(
    alloc: Global,
    binding: Let,
    called: &CalledShapes,
    table: &mut FactTable,
) -> Result<SweptLet, Memory>
    ensures swept { IfOk result (λ l. let_term l.binding ≡ swept_let (shapes_of called.now) (let_term binding) (facts_of table.old)) }
    ensures value { IfOk result (λ l. l.may_go ≡ is_removable (let_term binding).right (facts_of table.old)) }
    ensures learned { OnOk result (facts_of table.new
        ≡ note_all (facts_of table.old) (let_term binding).targets (right_facts (shapes_of called.now) (let_term binding).right (facts_of table.old))) }
    ensures earlier { OnOk result (drop (length table.new - length table.old) table.new ≡ table.old) }
{
    let Let {
        targets,
        site,
        right,
    } = binding;
    let SweptRight {
        right,
        used,
        values,
        has_value,
    } = in_right(alloc, right, called, table)?;
    learn_all(table, &targets, values)?;
    Ok(SweptLet {
        binding: Let {
            targets,
            site,
            right,
        },
        used,
        may_go: has_value,
    })
}

#[cycle(sweeping)]
fn in_right(
    alloc: Global,
    right: Right,
    called: &CalledShapes,
    table: &mut FactTable,
) -> Result<SweptRight, Memory>
    ensures swept { IfOk result (λ new. right_term new.right ≡ swept_right (shapes_of called.now) (right_term right) (facts_of table.old)) }
    ensures known { IfOk result (λ new. map fact_of new.values.items ≡ right_facts (shapes_of called.now) (right_term right) (facts_of table.old)) }
    ensures value { IfOk result (λ new. new.has_value ≡ is_removable (right_term right) (facts_of table.old)) }
    ensures table { OnOk result (table.new ≡ table.old) }
{
    match right {
        Right::If { cond, yes, no } => {
            let yes = in_block(alloc, yes, called, table)?;
            let no = in_block(alloc, no, called, table)?;
            conditional(alloc, cond, yes, no)
        }
        Right::Loop {
            first_body,
            start,
            params,
            test,
            body,
            test_site,
        } => {
            let outer = table.mark();
            forget(alloc, table, &params)?;
            let test = in_block(alloc, test, called, table)?;
            let body = in_block(alloc, body, called, table)?;
            table.undo(outer);
            repeated(
                first_body,
                start,
                params,
                test,
                body,
                test_site,
                Vec::new(alloc),
            )
        }
        Right::Call { group, args } => call(alloc, group, args, called.facts(alloc, group)?),
        Right::With(w) => in_with(alloc, w, called, table),
        Right::Parted(p) => in_parted(alloc, p, called, table),
        other => plain(alloc, other, table),
    }
}

#[cycle(sweeping)]
fn in_with(
    alloc: Global,
    with: WithLoop,
    called: &CalledShapes,
    table: &mut FactTable,
) -> Result<SweptRight, Memory>
    ensures swept { IfOk result (λ new. right_term new.right ≡ swept_right (shapes_of called.now) (with_term with) (facts_of table.old)) }
    ensures known { IfOk result (λ new. map fact_of new.values.items ≡ right_facts (shapes_of called.now) (with_term with) (facts_of table.old)) }
    ensures value { IfOk result (λ new. new.has_value ≡ is_removable (with_term with) (facts_of table.old)) }
    ensures table { OnOk result (table.new ≡ table.old) }
{
    let WithLoop { gens, op } = with;
    let mut swept = Vec::new(alloc);
    for generator in gens {
        swept.push(in_gen(alloc, generator, called, table)?)?;
    }
    with_loop(alloc, op, swept)
}

#[cycle(sweeping)]
fn in_gen(
    alloc: Global,
    generator: CoreGen,
    called: &CalledShapes,
    table: &mut FactTable,
) -> Result<SweptGen, Memory>
    ensures swept { IfOk result (λ new. gen_term new.generator ≡ swept_gen (shapes_of called.now) (gen_term generator) (facts_of table.old)) }
    ensures table { OnOk result (table.new ≡ table.old) }
{
    let CoreGen {
        lower,
        lower_closed,
        upper,
        upper_closed,
        step,
        width,
        index,
        names,
        body,
        site,
    } = generator;
    let outer = table.mark();
    forget_index(alloc, table, index, &names)?;
    let body = in_block(alloc, body, called, table)?;
    table.undo(outer);
    let mut used = body.used;
    add_head(&mut used, lower, upper, step, width)?;
    Ok(SweptGen {
        generator: CoreGen {
            lower,
            lower_closed,
            upper,
            upper_closed,
            step,
            width,
            index,
            names,
            body: body.block,
            site,
        },
        used,
    })
}

#[cycle(sweeping)]
fn in_parted(
    alloc: Global,
    parted: PartedLoop,
    called: &CalledShapes,
    table: &mut FactTable,
) -> Result<SweptRight, Memory>
    ensures swept { IfOk result (λ new. right_term new.right ≡ swept_right (shapes_of called.now) (parted_term parted) (facts_of table.old)) }
    ensures known { IfOk result (λ new. map fact_of new.values.items ≡ right_facts (shapes_of called.now) (parted_term parted) (facts_of table.old)) }
    ensures value { IfOk result (λ new. new.has_value ≡ is_removable (parted_term parted) (facts_of table.old)) }
    ensures table { OnOk result (table.new ≡ table.old) }
{
    let PartedLoop {
        frame,
        base,
        cell,
        op,
        parts,
    } = parted;
    let mut swept = Vec::new(alloc);
    for part in parts {
        swept.push(in_part(alloc, part, called, table)?)?;
    }
    parted_loop(alloc, frame, base, cell, op, swept)
}

#[cycle(sweeping)]
fn in_part(
    alloc: Global,
    part: CorePart,
    called: &CalledShapes,
    table: &mut FactTable,
) -> Result<SweptPart, Memory>
    ensures swept { IfOk result (λ new. part_term new.part ≡ swept_part (shapes_of called.now) (part_term part) (facts_of table.old)) }
    ensures table { OnOk result (table.new ≡ table.old) }
{
    let outer = table.mark();
    learn_index(alloc, table, part.index, &part.grid)?;
    let body = in_block(alloc, part.body, called, table)?;
    table.undo(outer);
    Ok(SweptPart {
        part: CorePart {
            grid: part.grid,
            index: part.index,
            body: body.block,
            site: part.site,
        },
        used: body.used,
    })
}

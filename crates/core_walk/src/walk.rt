//! One walk over a block, inner blocks first.

ghost use Rattle.std.specs.Prelude.{◌≡◌, ◌-◌, ◌++◌, List, IfOk, OnOk, map, drop, length};
ghost use Rattle.core_ir.specs.Terms.{LetTerm};
ghost use Rattle.core_ir.specs.View.{block_term, let_term, right_term, with_term, gen_term, parted_term, part_term};
ghost use Rattle.fact_table.specs.Table.{fact_of, facts_of};
ghost use Rattle.core_walk.specs.Traced.{BlockTraced, GenTraced, LetTraced, PartTraced, RightTraced};

use crate::rewriting::{Place, Rewriting};
use core_ir::{Block, CoreGen, CorePart, Let, PartedLoop, Right, WithLoop};
use fact_table::FactTable;
use plain_facts::known_rights::{KnownBlock, KnownRight};
use plain_facts::{forget, forget_index, known_of, learn_all, learn_index};
use sac_base::Memory;
use std::alloc::Global;

/// Changes a block as a pass does, by what is known where each right side stands; the blocks in a right side come before it.
///
/// Of a variable that stands in the table its note counts. The table is left as it was.
///
/// # Errors
///
/// `Memory`: there is none for a block or for what is known of a variable, or the pass has none.
#[cycle(walking)]
pub fn walk_block<R: Rewriting>(
    alloc: Global,
    block: Block,
    pass: &R,
    table: &mut FactTable,
    progress: &mut R::Progress,
) -> Result<KnownBlock, Memory>
    ensures traced { IfOk result (λ new. BlockTraced (R.called pass.now) R.Progress (R.step pass.now) (R.finish pass.now) (facts_of table.old)
        progress.old progress.new (block_term block) (block_term new.block) (map fact_of new.results.items)) }
    ensures table { OnOk result (table.new ≡ table.old) }
{
    let Block { lets, results } = block;
    let before = table.mark();
    let mut done = Vec::new(alloc);
    for binding in lets {
        walk_binding(alloc, binding, pass, table, progress, &mut done)?;
    }
    let known = known_of(alloc, table, &results)?;
    table.undo(before);
    let walked = KnownBlock {
        block: Block {
            lets: done,
            results,
        },
        results: known,
    };
    pass.block(alloc, walked, table, progress)
}

/// The table learns what the new right side tells of the targets.
#[cycle(walking)]
fn walk_binding<R: Rewriting>(
    alloc: Global,
    binding: Let,
    pass: &R,
    table: &mut FactTable,
    progress: &mut R::Progress,
    done: &mut Vec<Let>,
) -> Result<(), Memory>
    ensures traced { OnOk result ((ms : List LetTerm) × (map let_term done.new.items ≡ map let_term done.old.items ++ ms)
        × LetTraced (R.called pass.now) R.Progress (R.step pass.now) (R.finish pass.now) (facts_of table.old) (facts_of table.new)
        progress.old progress.new (let_term binding) ms) }
    ensures earlier { OnOk result (drop (length table.new - length table.old) table.new ≡ table.old) }
{
    let Let {
        targets,
        site,
        right,
    } = binding;
    let inside = walk_right(alloc, right, pass, table, progress)?;
    let place = Place {
        targets: &targets,
        site,
    };
    let KnownRight { right, values } = pass.right(alloc, place, inside, table, progress, done)?;
    learn_all(table, &targets, values)?;
    done.push(Let {
        targets,
        site,
        right,
    })?;
    Ok(())
}

/// The blocks in a right side.
#[cycle(walking)]
fn walk_right<R: Rewriting>(
    alloc: Global,
    right: Right,
    pass: &R,
    table: &mut FactTable,
    progress: &mut R::Progress,
) -> Result<KnownRight, Memory>
    ensures traced { IfOk result (λ new. RightTraced (R.called pass.now) R.Progress (R.step pass.now) (R.finish pass.now) (facts_of table.old)
        progress.old progress.new (right_term right) (right_term new.right) (map fact_of new.values.items)) }
    ensures table { OnOk result (table.new ≡ table.old) }
{
    match right {
        Right::If { cond, yes, no } => {
            let yes = walk_block(alloc, yes, pass, table, progress)?;
            let no = walk_block(alloc, no, pass, table, progress)?;
            KnownRight::of_if(alloc, cond, yes, no)
        }
        Right::Loop {
            first_body,
            start,
            params,
            test,
            body,
            test_site,
        } => {
            let outer = table.mark();
            forget(alloc, table, &params)?;
            let test = walk_block(alloc, test, pass, table, progress)?;
            let body = walk_block(alloc, body, pass, table, progress)?;
            table.undo(outer);
            Ok(KnownRight::of_loop(
                alloc, first_body, start, params, test.block, body.block, test_site,
            ))
        }
        Right::Call { group, args } => KnownRight::of_call(alloc, group, args, pass.called()),
        Right::With(with) => walk_with(alloc, with, pass, table, progress),
        Right::Parted(parted) => walk_parted(alloc, parted, pass, table, progress),
        plain => KnownRight::of_plain(alloc, plain, table),
    }
}

/// The bodies of generators.
#[cycle(walking)]
fn walk_with<R: Rewriting>(
    alloc: Global,
    with: WithLoop,
    pass: &R,
    table: &mut FactTable,
    progress: &mut R::Progress,
) -> Result<KnownRight, Memory>
    ensures traced { IfOk result (λ new. RightTraced (R.called pass.now) R.Progress (R.step pass.now) (R.finish pass.now) (facts_of table.old)
        progress.old progress.new (with_term with) (right_term new.right) (map fact_of new.values.items)) }
    ensures table { OnOk result (table.new ≡ table.old) }
{
    let WithLoop { gens, op } = with;
    let mut done = Vec::new(alloc);
    for generator in gens {
        done.push(walk_gen(alloc, generator, pass, table, progress)?)?;
    }
    Ok(KnownRight::of_with(alloc, WithLoop { gens: done, op }))
}

#[cycle(walking)]
fn walk_gen<R: Rewriting>(
    alloc: Global,
    generator: CoreGen,
    pass: &R,
    table: &mut FactTable,
    progress: &mut R::Progress,
) -> Result<CoreGen, Memory>
    ensures traced { IfOk result (λ new. GenTraced (R.called pass.now) R.Progress (R.step pass.now) (R.finish pass.now) (facts_of table.old)
        progress.old progress.new (gen_term generator) (gen_term new)) }
    ensures table { OnOk result (table.new ≡ table.old) }
{
    let CoreGen {
        lower,
        lower_closed,
        upper,
        upper_closed,
        step,
        width,
        index,
        names,
        body,
        site,
    } = generator;
    let outer = table.mark();
    forget_index(alloc, table, index, &names)?;
    let body = walk_block(alloc, body, pass, table, progress)?;
    table.undo(outer);
    Ok(CoreGen {
        lower,
        lower_closed,
        upper,
        upper_closed,
        step,
        width,
        index,
        names,
        body: body.block,
        site,
    })
}

/// The bodies of parts.
#[cycle(walking)]
fn walk_parted<R: Rewriting>(
    alloc: Global,
    parted: PartedLoop,
    pass: &R,
    table: &mut FactTable,
    progress: &mut R::Progress,
) -> Result<KnownRight, Memory>
    ensures traced { IfOk result (λ new. RightTraced (R.called pass.now) R.Progress (R.step pass.now) (R.finish pass.now) (facts_of table.old)
        progress.old progress.new (parted_term parted) (right_term new.right) (map fact_of new.values.items)) }
    ensures table { OnOk result (table.new ≡ table.old) }
{
    let PartedLoop {
        frame,
        base,
        cell,
        op,
        parts,
    } = parted;
    let mut done = Vec::new(alloc);
    for part in parts {
        done.push(walk_part(alloc, part, pass, table, progress)?)?;
    }
    KnownRight::of_parted(
        alloc,
        PartedLoop {
            frame,
            base,
            cell,
            op,
            parts: done,
        },
    )
}

#[cycle(walking)]
fn walk_part<R: Rewriting>(
    alloc: Global,
    part: CorePart,
    pass: &R,
    table: &mut FactTable,
    progress: &mut R::Progress,
) -> Result<CorePart, Memory>
    ensures traced { IfOk result (λ new. PartTraced (R.called pass.now) R.Progress (R.step pass.now) (R.finish pass.now) (facts_of table.old)
        progress.old progress.new (part_term part) (part_term new)) }
    ensures table { OnOk result (table.new ≡ table.old) }
{
    let CorePart {
        grid,
        index,
        body,
        site,
    } = part;
    let outer = table.mark();
    learn_index(alloc, table, index, &grid)?;
    let body = walk_block(alloc, body, pass, table, progress)?;
    table.undo(outer);
    Ok(CorePart {
        grid,
        index,
        body: body.block,
        site,
    })
}

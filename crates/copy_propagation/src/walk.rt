//! One walk over a block that uses sources in the place of copies.

ghost use Rattle.std.specs.Prelude.{◌≡◌, ◌-◌, Some, IfOk, OnOk, drop, length};
ghost use Rattle.core_ir.specs.View.{block_term, right_term, with_term, gen_term, parted_term, part_term};
ghost use Rattle.core_forms.specs.cleaning.Copies.{behind, forwarded, forwarded_right, source as source_of};
ghost use Rattle.copy_propagation.specs.Forwarded.{forwarded_gen, forwarded_part};
ghost use Rattle.copy_propagation.specs.Table.{source_in};

use crate::operands::{in_op, in_option, in_parted_op, in_vars};
use crate::sources::Sources;
use core_ir::{Block, CoreGen, CorePart, Let, PartedLoop, Right, Var, WithLoop};
use sac_base::Memory;
use std::alloc::Global;

/// Uses sources in the place of copies. The table is left as it was.
#[cycle(forwarding)]
pub fn in_block(alloc: Global, block: Block, sources: &mut Sources) -> Result<Block, Memory>
    ensures forwarded { IfOk result (λ b. block_term b ≡ forwarded (block_term block) (source_in sources.old)) }
    ensures sources { OnOk result (sources.new ≡ sources.old) }
{
    let Block { lets, results } = block;
    let before = sources.mark();
    let mut forwarded = Vec::new(alloc);
    for binding in lets {
        let Let {
            targets,
            site,
            right,
        } = binding;
        let right = in_right(alloc, right, sources)?;
        note_copy(sources, &targets, &right)?;
        forwarded.push(Let {
            targets,
            site,
            right,
        })?;
    }
    let results = in_vars(alloc, &results, sources)?;
    sources.undo(before);
    Ok(Block {
        lets: forwarded,
        results,
    })
}

/// Behind a copy its source stands for its target.
fn note_copy(sources: &mut Sources, targets: &[Var], right: &Right) -> Result<(), Memory>
    ensures noted { OnOk result (source_in sources.new ≡ behind targets.now (source_of (right_term right.now)) (source_in sources.old)) }
    ensures earlier { OnOk result (drop (length sources.new - length sources.old) sources.new ≡ sources.old) }
{
    match right {
        Right::Copy(x) => note_source(sources, targets, *x),
        _ => Ok(()),
    }
}

fn note_source(sources: &mut Sources, targets: &[Var], source: Var) -> Result<(), Memory>
    ensures noted { OnOk result (source_in sources.new ≡ behind targets.now (Some source) (source_in sources.old)) }
    ensures earlier { OnOk result (drop (length sources.new - length sources.old) sources.new ≡ sources.old) }
{
    if targets.len() == 1 {
        sources.learn(targets[0], source)?;
    }
    Ok(())
}

#[cycle(forwarding)]
fn in_right(alloc: Global, right: Right, sources: &mut Sources) -> Result<Right, Memory>
    ensures forwarded { IfOk result (λ r. right_term r ≡ forwarded_right (right_term right) (source_in sources.old)) }
    ensures sources { OnOk result (sources.new ≡ sources.old) }
{
    match right {
        Right::Const(a) => Ok(Right::Const(a)),
        Right::Copy(x) => Ok(Right::Copy(sources.source(x))),
        Right::Unary(op, x) => Ok(Right::Unary(op, sources.source(x))),
        Right::Binary(op, x, y) => Ok(Right::Binary(op, sources.source(x), sources.source(y))),
        Right::Literal(xs) => Ok(Right::Literal(in_vars(alloc, &xs, sources)?)),
        Right::Dim(x) => Ok(Right::Dim(sources.source(x))),
        Right::ShapeOf(x) => Ok(Right::ShapeOf(sources.source(x))),
        Right::Reshape(x, y) => Ok(Right::Reshape(sources.source(x), sources.source(y))),
        Right::Select(x, y) => Ok(Right::Select(sources.source(x), sources.source(y))),
        Right::Replace(x, y, z) => Ok(Right::Replace(
            sources.source(x),
            sources.source(y),
            sources.source(z),
        )),
        Right::If { cond, yes, no } => Ok(Right::If {
            cond: sources.source(cond),
            yes: in_block(alloc, yes, sources)?,
            no: in_block(alloc, no, sources)?,
        }),
        Right::Loop {
            first_body,
            start,
            params,
            test,
            body,
            test_site,
        } => Ok(Right::Loop {
            first_body,
            start: in_vars(alloc, &start, sources)?,
            params,
            test: in_block(alloc, test, sources)?,
            body: in_block(alloc, body, sources)?,
            test_site,
        }),
        Right::Call { group, args } => Ok(Right::Call {
            group,
            args: in_vars(alloc, &args, sources)?,
        }),
        Right::With(w) => Ok(Right::With(in_with(alloc, w, sources)?)),
        Right::Parted(p) => Ok(Right::Parted(in_parted(alloc, p, sources)?)),
        Right::Always(kind) => Ok(Right::Always(kind)),
        Right::Check(x, t) => Ok(Right::Check(sources.source(x), t)),
    }
}

#[cycle(forwarding)]
fn in_with(alloc: Global, with: WithLoop, sources: &mut Sources) -> Result<WithLoop, Memory>
    ensures forwarded { IfOk result (λ w. with_term w ≡ forwarded_right (with_term with) (source_in sources.old)) }
    ensures sources { OnOk result (sources.new ≡ sources.old) }
{
    let WithLoop { gens, op } = with;
    let mut forwarded = Vec::new(alloc);
    for generator in gens {
        forwarded.push(in_gen(alloc, generator, sources)?)?;
    }
    Ok(WithLoop {
        gens: forwarded,
        op: in_op(op, sources),
    })
}

#[cycle(forwarding)]
fn in_gen(alloc: Global, generator: CoreGen, sources: &mut Sources) -> Result<CoreGen, Memory>
    ensures forwarded { IfOk result (λ g. gen_term g ≡ forwarded_gen (gen_term generator) (source_in sources.old)) }
    ensures sources { OnOk result (sources.new ≡ sources.old) }
{
    let lower = in_option(generator.lower, sources);
    let upper = in_option(generator.upper, sources);
    let step = in_option(generator.step, sources);
    let width = in_option(generator.width, sources);
    let body = in_block(alloc, generator.body, sources)?;
    Ok(CoreGen {
        lower,
        lower_closed: generator.lower_closed,
        upper,
        upper_closed: generator.upper_closed,
        step,
        width,
        index: generator.index,
        names: generator.names,
        body,
        site: generator.site,
    })
}

#[cycle(forwarding)]
fn in_parted(alloc: Global, parted: PartedLoop, sources: &mut Sources) -> Result<PartedLoop, Memory>
    ensures forwarded { IfOk result (λ p. parted_term p ≡ forwarded_right (parted_term parted) (source_in sources.old)) }
    ensures sources { OnOk result (sources.new ≡ sources.old) }
{
    let PartedLoop {
        frame,
        base,
        cell,
        op,
        parts,
    } = parted;
    let mut forwarded = Vec::new(alloc);
    for part in parts {
        forwarded.push(in_part(alloc, part, sources)?)?;
    }
    Ok(PartedLoop {
        frame,
        base,
        cell,
        op: in_parted_op(op, sources),
        parts: forwarded,
    })
}

#[cycle(forwarding)]
fn in_part(alloc: Global, part: CorePart, sources: &mut Sources) -> Result<CorePart, Memory>
    ensures forwarded { IfOk result (λ p. part_term p ≡ forwarded_part (part_term part) (source_in sources.old)) }
    ensures sources { OnOk result (sources.new ≡ sources.old) }
{
    let body = in_block(alloc, part.body, sources)?;
    Ok(CorePart {
        grid: part.grid,
        index: part.index,
        body,
        site: part.site,
    })
}

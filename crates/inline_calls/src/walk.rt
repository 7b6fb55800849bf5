//! A walk over a block that inlines calls.

ghost use Rattle.std.specs.Prelude.{◌≡◌, IfOk, OnOk};
ghost use Rattle.core_ir.specs.View.{core_term, block_term, let_term, right_term, with_term, gen_term, parted_term, part_term};
ghost use Rattle.core_forms.specs.inlined_bodies.Inlining.{BlockInlined, RightInlined};
ghost use Rattle.core_forms.specs.inlined_bodies.Functions.{Anywhere};
ghost use Rattle.inline_calls.specs.Bindings.{Pushed, RightWalked, GenInlined, PartInlined};

use crate::call::{Inlined, inlined_call};
use crate::sizes::Measured;
use core_forms::inlined_bodies::Growth;
use core_ir::{Block, CoreGen, CorePart, Let, PartedLoop, Right, Var, WithLoop, copy_right};
use sac_base::Memory;
use std::alloc::Global;

/// A copy of a block in which calls of inline functions are inlined, as long as there is room.
#[cycle(inlining)]
pub fn inline_block(
    alloc: Global,
    work: &Measured<'_>,
    growth: &mut Growth,
    block: &Block,
) -> Result<Block, Memory>
    ensures { IfOk result (λ b. BlockInlined (core_term work.now.core.now) Anywhere growth.old (block_term block.now) (block_term b) growth.new) }
{
    let mut lets = Vec::new(alloc);
    for binding in &block.lets {
        push_binding(alloc, work, growth, binding, &mut lets)?;
    }
    Ok(Block {
        lets,
        results: copy_vars(alloc, &block.results)?,
    })
}

/// Pushes the bindings that stand for a binding.
#[cycle(inlining)]
fn push_binding(
    alloc: Global,
    work: &Measured<'_>,
    growth: &mut Growth,
    binding: &Let,
    lets: &mut Vec<Let>,
) -> Result<(), Memory>
    ensures { OnOk result (Pushed (core_term work.now.core.now) growth.old (let_term binding.now) lets.old.items lets.new.items growth.new) }
{
    match inlined_call(alloc, work, *growth, binding)? {
        Some(inlined) => {
            let Inlined {
                lets: mut inner,
                growth: after,
            } = inlined;
            lets.append(&mut inner)?;
            *growth = after;
        }
        None => {
            let right = inline_right(alloc, work, growth, &binding.right)?;
            lets.push(Let {
                targets: copy_vars(alloc, &binding.targets)?,
                site: binding.site,
                right,
            })?;
        }
    }
    Ok(())
}

#[cycle(inlining)]
fn inline_right(
    alloc: Global,
    work: &Measured<'_>,
    growth: &mut Growth,
    right: &Right,
) -> Result<Right, Memory>
    ensures { IfOk result (λ r. RightWalked (core_term work.now.core.now) growth.old (right_term right.now) (right_term r) growth.new) }
{
    match right {
        Right::If { cond, yes, no } => Ok(Right::If {
            cond: *cond,
            yes: inline_block(alloc, work, growth, yes)?,
            no: inline_block(alloc, work, growth, no)?,
        }),
        Right::Loop {
            first_body,
            start,
            params,
            test,
            body,
            test_site,
        } => Ok(Right::Loop {
            first_body: *first_body,
            start: copy_vars(alloc, start)?,
            params: copy_vars(alloc, params)?,
            test: inline_block(alloc, work, growth, test)?,
            body: inline_block(alloc, work, growth, body)?,
            test_site: *test_site,
        }),
        Right::With(w) => Ok(Right::With(inline_with(alloc, work, growth, w)?)),
        Right::Parted(p) => Ok(Right::Parted(inline_parted(alloc, work, growth, p)?)),
        _ => copy_right(alloc, right),
    }
}

#[cycle(inlining)]
fn inline_with(
    alloc: Global,
    work: &Measured<'_>,
    growth: &mut Growth,
    with: &WithLoop,
) -> Result<WithLoop, Memory>
    ensures { IfOk result (λ w. RightInlined (core_term work.now.core.now) Anywhere growth.old (with_term with.now) (with_term w) growth.new) }
{
    let mut gens = Vec::new(alloc);
    for generator in &with.gens {
        gens.push(inline_gen(alloc, work, growth, generator)?)?;
    }
    Ok(WithLoop { gens, op: with.op })
}

#[cycle(inlining)]
fn inline_gen(
    alloc: Global,
    work: &Measured<'_>,
    growth: &mut Growth,
    generator: &CoreGen,
) -> Result<CoreGen, Memory>
    ensures { IfOk result (λ g. GenInlined (core_term work.now.core.now) growth.old (gen_term generator.now) (gen_term g) growth.new) }
{
    Ok(CoreGen {
        lower: generator.lower,
        lower_closed: generator.lower_closed,
        upper: generator.upper,
        upper_closed: generator.upper_closed,
        step: generator.step,
        width: generator.width,
        index: generator.index,
        names: copy_vars(alloc, &generator.names)?,
        body: inline_block(alloc, work, growth, &generator.body)?,
        site: generator.site,
    })
}

#[cycle(inlining)]
fn inline_parted(
    alloc: Global,
    work: &Measured<'_>,
    growth: &mut Growth,
    parted: &PartedLoop,
) -> Result<PartedLoop, Memory>
    ensures { IfOk result (λ p. RightInlined (core_term work.now.core.now) Anywhere growth.old (parted_term parted.now) (parted_term p) growth.new) }
{
    let mut parts = Vec::new(alloc);
    for part in &parted.parts {
        parts.push(inline_part(alloc, work, growth, part)?)?;
    }
    let frame = parted.frame.copy(alloc)?;
    let cell = parted.cell.copy();
    Ok(PartedLoop {
        frame,
        base: parted.base,
        cell,
        op: parted.op,
        parts,
    })
}

#[cycle(inlining)]
fn inline_part(
    alloc: Global,
    work: &Measured<'_>,
    growth: &mut Growth,
    part: &CorePart,
) -> Result<CorePart, Memory>
    ensures { IfOk result (λ p. PartInlined (core_term work.now.core.now) growth.old (part_term part.now) (part_term p) growth.new) }
{
    Ok(CorePart {
        grid: part.grid.copy(alloc)?,
        index: part.index,
        body: inline_block(alloc, work, growth, &part.body)?,
        site: part.site,
    })
}

fn copy_vars(alloc: Global, vars: &[Var]) -> Result<Vec<Var>, Memory>
    ensures { IfOk result (λ v. v.items ≡ vars.now) }
{
    Ok(Vec::from_slice(alloc, vars)?)
}

//! Steps that keep and release are put between bindings.

ghost use Rattle.std.specs.Prelude.{◌≡◌, [], List, IfOk};
ghost use Rattle.core_ir.specs.View.{block_term, let_term, right_term, with_term, parted_term, gen_term, part_term};
ghost use Rattle.counted_code.specs.View.{code_term, code_right_term, code_with_term, code_parted_term};
ghost use Rattle.ref_counts.specs.Endings.{ends_in};
ghost use Rattle.ref_rules.specs.listed_uses.Latest.{IfAt, section};
ghost use Rattle.ref_rules.specs.declared.listed_uses.list.Entry.{Entry as Listed};
ghost use Rattle.ref_counts.specs.Listing.{listed, listed_right};
ghost use Rattle.ref_counts.specs.Owning.{IsSound, EndsOf};
ghost use Rattle.counted_code.specs.Pieces.{code_gen_term, code_part_term};
ghost use Rattle.ref_counts.specs.Pieces.{placing_gen, placing_part};
ghost use Rattle.ref_counts.specs.Placements.{ResultsPlaced, LetPlaced};
ghost use Rattle.counted_laws.specs.placing.Placing.{placing, placing_right};

use crate::held::{Owned, add_vars, take_unused, with_all};
use crate::steps::{copy_vars, handed_on, may_end, push_binding, read_from};
use core_ir::{Block, CoreGen, CorePart, Let, PartedLoop, Right, Var, WithLoop};
use counted_code::{CodeBlock, CodeGen, CodePart, CodeParted, CodeRight, CodeStep, CodeWith};
use ref_rules::listed_uses::Uses;
use ref_rules::{needing_more, push_keeps, push_releases};
use sac_base::{Memory, copy_array, copy_type};
use std::alloc::Global;

/// The block with the steps that its references need: it ends those of `refs`. Its section of the uses stands at `start`.
#[cycle(place)]
pub fn place_block(
    alloc: Global,
    block: &Block,
    uses: &Uses,
    start: usize,
    refs: &[Var],
) -> Result<CodeBlock, Memory>
    ensures { IfAt uses.now start (section (listed (block_term block.now))) (
        IfOk result (λ c. code_term c ≡ placing refs.now (block_term block.now))) }
{
    let end = uses.section_end(start);
    let mut steps = Vec::new(alloc);
    let mut owned = with_all(alloc, Owned::Gone, uses, end, refs)?;
    let mut from = uses.skip(start, 1);
    for binding in &block.lets {
        let to = uses.section_end(from);
        let stay = place_let(alloc, binding, uses, from, to, owned, &mut steps)?;
        owned = with_all(alloc, stay, uses, end, &binding.targets)?;
        from = to;
    }
    place_results(alloc, &block.results, from, owned, &mut steps)?;
    Ok(CodeBlock {
        steps,
        results: copy_vars(alloc, &block.results)?,
    })
}

/// Appends the steps before a block's results.
fn place_results(
    alloc: Global,
    results: &[Var],
    from: usize,
    owned: Owned,
    steps: &mut Vec<CodeStep>,
) -> Result<(), Memory>
    ensures { ResultsPlaced from owned results.now steps.old.items steps.new.items result }
{
    let mut dead = Vec::new(alloc);
    let left = take_unused(alloc, owned, from, &mut dead)?;
    push_releases(&dead, steps)?;
    let mut live = Vec::new(alloc);
    add_vars(&left, &mut live)?;
    let more = needing_more(alloc, results, &live)?;
    push_keeps(&more, steps)
}

/// Appends a binding with the steps before it, and answers the variables whose references are there behind it beside its targets.
#[cycle(place)]
fn place_let(
    alloc: Global,
    binding: &Let,
    uses: &Uses,
    from: usize,
    to: usize,
    owned: Owned,
    steps: &mut Vec<CodeStep>,
) -> Result<Owned, Memory>
    ensures { LetPlaced uses.now (let_term binding.now) from to owned steps.old.items steps.new.items result }
{
    let mut dead = Vec::new(alloc);
    let live = take_unused(alloc, owned, from, &mut dead)?;
    push_releases(&dead, steps)?;
    let mut mine = Vec::new(alloc);
    let stay = take_given(alloc, &binding.right, live, from, to, &mut mine)?;
    let handed = handed_on(alloc, &binding.right)?;
    let more = needing_more(alloc, &handed, &mine)?;
    push_keeps(&more, steps)?;
    let right = place_right(alloc, &binding.right, uses, uses.skip(from, 1), &mine)?;
    let targets = copy_vars(alloc, &binding.targets)?;
    push_binding(targets, binding.site, right, steps)?;
    Ok(stay)
}

/// Takes the variables out whose references end in the right side, and appends them to `mine`.
fn take_given(
    alloc: Global,
    right: &Right,
    live: Owned,
    from: usize,
    to: usize,
    mine: &mut Vec<Var>,
) -> Result<Owned, Memory>
    ensures { (es : List Listed) → IsSound es live → IfOk result (λ t.
        EndsOf es (ends_in es (right_term right.now) from to) live t mine.old.items mine.new.items) }
{
    if !may_end(right) {
        return Ok(live);
    }
    take_unused(alloc, live, read_from(right, from, to), mine)
}

/// The right side, whose branches end the references of `mine`.
#[cycle(place)]
fn place_right(
    alloc: Global,
    right: &Right,
    uses: &Uses,
    from: usize,
    mine: &[Var],
) -> Result<CodeRight, Memory>
    ensures { IfAt uses.now from (listed_right (right_term right.now)) (
        IfOk result (λ r. code_right_term r ≡ placing_right mine.now (right_term right.now))) }
{
    match right {
        Right::Const(a) => Ok(CodeRight::Const(copy_array(a)?)),
        Right::Copy(x) => Ok(CodeRight::Copy(*x)),
        Right::Unary(op, x) => Ok(CodeRight::Unary(*op, *x)),
        Right::Binary(op, x, y) => Ok(CodeRight::Binary(*op, *x, *y)),
        Right::Literal(xs) => Ok(CodeRight::Literal(copy_vars(alloc, xs)?)),
        Right::Dim(x) => Ok(CodeRight::Dim(*x)),
        Right::ShapeOf(x) => Ok(CodeRight::ShapeOf(*x)),
        Right::Reshape(x, y) => Ok(CodeRight::Reshape(*x, *y)),
        Right::Select(x, y) => Ok(CodeRight::Select(*x, *y)),
        Right::Replace(x, y, z) => Ok(CodeRight::Replace(*x, *y, *z)),
        Right::If { cond, yes, no } => {
            let first = uses.skip(from, 1);
            let second = uses.section_end(first);
            Ok(CodeRight::If {
                cond: *cond,
                yes: place_block(alloc, yes, uses, first, mine)?,
                no: place_block(alloc, no, uses, second, mine)?,
            })
        }
        Right::Loop {
            first_body,
            start,
            params,
            test,
            body,
            test_site,
        } => {
            let first = uses.skip(from, start.len());
            let second = uses.section_end(first);
            Ok(CodeRight::Loop {
                first_body: *first_body,
                start: copy_vars(alloc, start)?,
                params: copy_vars(alloc, params)?,
                test: place_block(alloc, test, uses, first, &[])?,
                body: place_block(alloc, body, uses, second, params)?,
                test_site: *test_site,
            })
        }
        Right::Call { group, args } => Ok(CodeRight::Call {
            group: *group,
            args: copy_vars(alloc, args)?,
        }),
        Right::With(w) => Ok(CodeRight::With(place_with(alloc, w, uses, from)?)),
        Right::Parted(p) => Ok(CodeRight::Parted(place_parted(alloc, p, uses, from)?)),
        Right::Always(kind) => Ok(CodeRight::Always(*kind)),
        Right::Check(x, ty) => Ok(CodeRight::Check(*x, copy_type(ty))),
    }
}

#[cycle(place)]
fn place_with(alloc: Global, with: &WithLoop, uses: &Uses, from: usize) -> Result<CodeWith, Memory>
    ensures { IfAt uses.now from (listed_right (with_term with.now)) (
        IfOk result (λ w. code_with_term w ≡ placing_right [] (with_term with.now))) }
{
    let mut gens = Vec::new(alloc);
    let mut at = uses.section_end(from);
    for generator in &with.gens {
        let body = uses.section_end(at);
        let next = uses.section_end(body);
        gens.push(place_gen(alloc, generator, uses, body)?)?;
        at = next;
    }
    Ok(CodeWith { gens, op: with.op })
}

#[cycle(place)]
fn place_gen(
    alloc: Global,
    generator: &CoreGen,
    uses: &Uses,
    start: usize,
) -> Result<CodeGen, Memory>
    ensures { IfAt uses.now start (section (listed (gen_term generator.now).body)) (
        IfOk result (λ g. code_gen_term g ≡ placing_gen (gen_term generator.now))) }
{
    let mut own = Vec::new(alloc);
    own.push(generator.index)?;
    own.extend_from_slice(&generator.names)?;
    Ok(CodeGen {
        lower: generator.lower,
        lower_closed: generator.lower_closed,
        upper: generator.upper,
        upper_closed: generator.upper_closed,
        step: generator.step,
        width: generator.width,
        index: generator.index,
        names: copy_vars(alloc, &generator.names)?,
        body: place_block(alloc, &generator.body, uses, start, &own)?,
        site: generator.site,
    })
}

#[cycle(place)]
fn place_parted(
    alloc: Global,
    parted: &PartedLoop,
    uses: &Uses,
    from: usize,
) -> Result<CodeParted, Memory>
    ensures { IfAt uses.now from (listed_right (parted_term parted.now)) (
        IfOk result (λ p. code_parted_term p ≡ placing_right [] (parted_term parted.now))) }
{
    let mut parts = Vec::new(alloc);
    let mut at = uses.section_end(from);
    for part in &parted.parts {
        let next = uses.section_end(at);
        parts.push(place_part(alloc, part, uses, at)?)?;
        at = next;
    }
    let frame = parted.frame.copy(alloc)?;
    let cell = parted.cell.copy();
    Ok(CodeParted {
        frame,
        base: parted.base,
        cell,
        op: parted.op,
        parts,
        reuse: None,
    })
}

#[cycle(place)]
fn place_part(alloc: Global, part: &CorePart, uses: &Uses, start: usize) -> Result<CodePart, Memory>
    ensures { IfAt uses.now start (section (listed (part_term part.now).body)) (
        IfOk result (λ p. code_part_term p ≡ placing_part (part_term part.now))) }
{
    Ok(CodePart {
        grid: part.grid.copy(alloc)?,
        index: part.index,
        body: place_block(alloc, &part.body, uses, start, &[part.index])?,
        site: part.site,
    })
}

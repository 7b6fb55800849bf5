//! The walk through a block, from its end to its start.
//!
//! What a block hands on and releases tells which references it has: at its end those of its results, and in front of each step those that the step
//! needs for what follows. So nothing is guessed, and a block is well counted from a list of references if it has just these.

ghost use Rattle.std.specs.Prelude.{◌≡◌, List, [], IfOk, IfSome, IsSomeAnd, IsTrue};
ghost use Rattle.core_ir.specs.declared.tree.Var.{Var};
ghost use Rattle.counted_code.specs.Counts.{CountedGens, CountedParts, Reordered, UnmarkedGens, UnmarkedParts, group_results};
ghost use Rattle.counted_code.specs.Terms.{core_of_code};
ghost use Rattle.counted_code.specs.View.{code_program, code_term, code_right_term, code_with_term, code_parted_term};
ghost use Rattle.counted_code.specs.declared.tree.CodeStep.TheVariants as step_of;
ghost use Rattle.counted_code.specs.Pieces.{gens_term, parts_term};
ghost use Rattle.phase_checks.specs.Walks.{results_in, IsCounted, IsCountedRight, IsCountedGen, IsCountedPart, Leads, Determines, IsNested, IsValue};

use crate::bags::{
    are_new, are_same, joined, none_in, stands_in, stands_in_either, take_all, take_out,
};
use crate::groups::count_results;
use crate::reads::{bounds_read, only_reads, operation_reads, parted_reads};
use core_ir::Var;
use counted_code::{
    Code, CodeBlock, CodeGen, CodeLet, CodePart, CodeParted, CodeRight, CodeStep, CodeWith,
};
use sac_base::Memory;
use std::alloc::Global;

/// Whether the cells of a with-loop are well counted, and without marks, where they read variables of the list.
#[cycle(walk)]
pub fn gens_are_counted(
    alloc: Global,
    code: &Code,
    outer: &[Var],
    gens: &[CodeGen],
) -> Result<bool, Memory>
    ensures counted { IfOk result (λ b. IsTrue b → CountedGens (group_results (core_of_code (code_program code.now))) outer.now (gens_term gens.now)
        × UnmarkedGens (gens_term gens.now)) }
    ensures converse { IfOk result (λ b. CountedGens (group_results (core_of_code (code_program code.now))) outer.now (gens_term gens.now)
        → UnmarkedGens (gens_term gens.now) → IsTrue b) }
{
    for generator in gens {
        if !gen_is_counted(alloc, code, outer, generator)? {
            return Ok(false);
        }
    }
    Ok(true)
}

/// Whether the cells of a parted loop are well counted, and without marks, where they read variables of the list.
#[cycle(walk)]
pub fn parts_are_counted(
    alloc: Global,
    code: &Code,
    outer: &[Var],
    parts: &[CodePart],
) -> Result<bool, Memory>
    ensures counted { IfOk result (λ b. IsTrue b → CountedParts (group_results (core_of_code (code_program code.now))) outer.now (parts_term parts.now)
        × UnmarkedParts (parts_term parts.now)) }
    ensures converse { IfOk result (λ b. CountedParts (group_results (core_of_code (code_program code.now))) outer.now (parts_term parts.now)
        → UnmarkedParts (parts_term parts.now) → IsTrue b) }
{
    for part in parts {
        if !part_is_counted(alloc, code, outer, part)? {
            return Ok(false);
        }
    }
    Ok(true)
}

/// The same of one generator, whose cells have their index and its names.
#[cycle(walk)]
fn gen_is_counted(
    alloc: Global,
    code: &Code,
    outer: &[Var],
    generator: &CodeGen,
) -> Result<bool, Memory>
    ensures counted { IfOk result (λ b. IsTrue b → IsCountedGen (results_in code.now) outer.now generator.now) }
    ensures converse { IfOk result (λ b. IsCountedGen (results_in code.now) outer.now generator.now → IsTrue b) }
{
    let own = joined(alloc, &[generator.index], &generator.names)?;
    if !bounds_read(generator, outer) || !none_in(&own, outer) {
        return Ok(false);
    }
    block_is_counted(alloc, code, outer, &own, 1, &generator.body)
}

/// The same of one part, whose cells have their index.
#[cycle(walk)]
fn part_is_counted(
    alloc: Global,
    code: &Code,
    outer: &[Var],
    part: &CodePart,
) -> Result<bool, Memory>
    ensures counted { IfOk result (λ b. IsTrue b → IsCountedPart (results_in code.now) outer.now part.now) }
    ensures converse { IfOk result (λ b. IsCountedPart (results_in code.now) outer.now part.now → IsTrue b) }
{
    if stands_in(outer, part.index) {
        return Ok(false);
    }
    block_is_counted(alloc, code, outer, &[part.index], 1, &part.body)
}

/// Whether a block that has these references is well counted and without marks.
#[cycle(walk)]
fn block_is_counted(
    alloc: Global,
    code: &Code,
    outer: &[Var],
    own: &[Var],
    results: usize,
    block: &CodeBlock,
) -> Result<bool, Memory>
    ensures counted { IfOk result (λ b. IsTrue b → IsCounted (results_in code.now) results outer.now own.now (code_term block.now)) }
    ensures converse { IfOk result (λ b. IsCounted (results_in code.now) results outer.now own.now (code_term block.now) → IsTrue b) }
{
    match block_refs(alloc, code, outer, results, block)? {
        Some(refs) => Ok(are_same(refs, own)),
        None => Ok(false),
    }
}

/// The references with which a block is well counted and without marks, if there are any.
#[cycle(walk)]
fn block_refs(
    alloc: Global,
    code: &Code,
    outer: &[Var],
    results: usize,
    block: &CodeBlock,
) -> Result<Option<Vec<Var>>, Memory>
    ensures counted { IfOk result (λ o. IfSome o (λ refs. IsCounted (results_in code.now) results outer.now refs.items (code_term block.now))) }
    ensures converse { IfOk result (λ o. (own : List Var) → IsCounted (results_in code.now) results outer.now own (code_term block.now)
        → IsSomeAnd o (λ refs. Reordered own refs.items)) }
{
    if block.results.len() != results {
        return Ok(None);
    }
    let mut refs = Vec::from_slice(alloc, &block.results)?;
    let mut left = block.steps.len();
    while left > 0 {
        left -= 1;
        if !step_back(alloc, code, outer, &block.steps[left], &mut refs)? {
            return Ok(None);
        }
    }
    Ok(Some(refs))
}

/// From the references that there are after a step to those before it, if it is well counted.
#[cycle(walk)]
fn step_back(
    alloc: Global,
    code: &Code,
    outer: &[Var],
    step: &CodeStep,
    refs: &mut Vec<Var>,
) -> Result<bool, Memory>
    ensures counted { IfOk result (λ b. IsTrue b → Leads (results_in code.now) outer.now refs.new.items step.now refs.old.items) }
    ensures converse { IfOk result (λ b. Determines (results_in code.now) outer.now refs.new.items step.now refs.old.items b) }
{
    match step {
        CodeStep::Bind(binding) => binding_back(alloc, code, outer, binding, refs),
        CodeStep::Keep(x) => {
            if !take_out(refs, *x) {
                return Ok(false);
            }
            Ok(stands_in_either(refs, outer, *x))
        }
        CodeStep::Release(x) => {
            refs.push(*x)?;
            Ok(true)
        }
    }
}

/// The same of a binding: the targets' references are those that it makes, and what its right side ends was there before.
#[cycle(walk)]
fn binding_back(
    alloc: Global,
    code: &Code,
    outer: &[Var],
    binding: &CodeLet,
    refs: &mut Vec<Var>,
) -> Result<bool, Memory>
    ensures counted { IfOk result (λ b. IsTrue b → Leads (results_in code.now) outer.now refs.new.items (step_of.Bind binding.now) refs.old.items) }
    ensures converse { IfOk result (λ b. Determines (results_in code.now) outer.now refs.new.items (step_of.Bind binding.now) refs.old.items b) }
{
    if !take_all(refs, &binding.targets) {
        return Ok(false);
    }
    let scope = joined(alloc, refs, outer)?;
    if !are_new(&binding.targets, &scope) {
        return Ok(false);
    }
    let results = binding.targets.len();
    match right_refs(alloc, code, &scope, results, &binding.right)? {
        Some(mine) => {
            refs.extend_from_slice(&mine)?;
            Ok(true)
        }
        None => Ok(false),
    }
}

/// The references that a right side ends, if it is well counted with them.
#[cycle(walk)]
fn right_refs(
    alloc: Global,
    code: &Code,
    scope: &[Var],
    results: usize,
    right: &CodeRight,
) -> Result<Option<Vec<Var>>, Memory>
    ensures counted { IfOk result (λ o. IfSome o (λ mine. IsCountedRight (results_in code.now) results scope.now mine.items (code_right_term right.now))) }
    ensures converse { IfOk result (λ o. (own : List Var) → IsCountedRight (results_in code.now) results scope.now own (code_right_term right.now)
        → IsSomeAnd o (λ mine. Reordered own mine.items)) }
{
    match right {
        CodeRight::If { .. } | CodeRight::Loop { .. } => {
            nested_refs(alloc, code, scope, results, right)
        }
        CodeRight::Call { group, args } => {
            if count_results(code, *group) != results {
                return Ok(None);
            }
            Ok(Some(Vec::from_slice(alloc, args)?))
        }
        CodeRight::Always(_) => Ok(Some(Vec::new(alloc))),
        _ => {
            if results != 1 {
                return Ok(None);
            }
            value_refs(alloc, code, scope, right)
        }
    }
}

/// The same of a conditional and of a loop.
#[cycle(walk)]
fn nested_refs(
    alloc: Global,
    code: &Code,
    scope: &[Var],
    results: usize,
    right: &CodeRight,
) -> Result<Option<Vec<Var>>, Memory>
    ensures counted { IfOk result (λ o. IfSome o (λ mine. IsCountedRight (results_in code.now) results scope.now mine.items (code_right_term right.now))) }
    ensures converse { IsNested (code_right_term right.now) → IfOk result (λ o. (own : List Var)
        → IsCountedRight (results_in code.now) results scope.now own (code_right_term right.now)
        → IsSomeAnd o (λ mine. Reordered own mine.items)) }
{
    match right {
        CodeRight::If { cond, yes, no } => {
            let Some(mine) = block_refs(alloc, code, scope, results, yes)? else {
                return Ok(None);
            };
            if stands_in_either(&mine, scope, *cond)
                && block_is_counted(alloc, code, scope, &mine, results, no)?
            {
                return Ok(Some(mine));
            }
            Ok(None)
        }
        CodeRight::Loop {
            start,
            params,
            test,
            body,
            ..
        } => {
            if start.len() != results || params.len() != results || !are_new(params, scope) {
                return Ok(None);
            }
            let inside = joined(alloc, params, scope)?;
            if block_is_counted(alloc, code, &inside, &[], 1, test)?
                && block_is_counted(alloc, code, scope, params, results, body)?
            {
                return Ok(Some(Vec::from_slice(alloc, start)?));
            }
            Ok(None)
        }
        _ => Ok(None),
    }
}

/// The same of a right side that gives one value.
#[cycle(walk)]
fn value_refs(
    alloc: Global,
    code: &Code,
    scope: &[Var],
    right: &CodeRight,
) -> Result<Option<Vec<Var>>, Memory>
    ensures counted { IfOk result (λ o. IfSome o (λ mine. IsCountedRight (results_in code.now) 1 scope.now mine.items (code_right_term right.now))) }
    ensures converse { IsValue (code_right_term right.now) → IfOk result (λ o. (own : List Var)
        → IsCountedRight (results_in code.now) 1 scope.now own (code_right_term right.now)
        → IsSomeAnd o (λ mine. Reordered own mine.items)) }
{
    match right {
        CodeRight::Copy(x) => Ok(Some(Vec::from_slice(alloc, &[*x])?)),
        CodeRight::Check(x, _) => Ok(Some(Vec::from_slice(alloc, &[*x])?)),
        CodeRight::With(with) => {
            let counted = with_is_counted(alloc, code, scope, with)?;
            Ok(none_if(alloc, counted))
        }
        CodeRight::Parted(parted) => {
            let counted = parted_is_counted(alloc, code, scope, parted)?;
            Ok(none_if(alloc, counted))
        }
        _ => Ok(none_if(alloc, only_reads(right, scope))),
    }
}

/// Whether a with-loop, which ends no reference, is well counted and without marks.
#[cycle(walk)]
fn with_is_counted(
    alloc: Global,
    code: &Code,
    scope: &[Var],
    with: &CodeWith,
) -> Result<bool, Memory>
    ensures counted { IfOk result (λ b. IsTrue b → IsCountedRight (results_in code.now) 1 scope.now [] (code_with_term with.now)) }
    ensures converse { IfOk result (λ b. IsCountedRight (results_in code.now) 1 scope.now [] (code_with_term with.now) → IsTrue b) }
{
    if !operation_reads(with.op, scope) {
        return Ok(false);
    }
    gens_are_counted(alloc, code, scope, &with.gens)
}

/// Whether a parted loop without a mark is well counted and its cells have no marks.
#[cycle(walk)]
fn parted_is_counted(
    alloc: Global,
    code: &Code,
    scope: &[Var],
    parted: &CodeParted,
) -> Result<bool, Memory>
    ensures counted { IfOk result (λ b. IsTrue b → IsCountedRight (results_in code.now) 1 scope.now [] (code_parted_term parted.now)) }
    ensures converse { IfOk result (λ b. IsCountedRight (results_in code.now) 1 scope.now [] (code_parted_term parted.now) → IsTrue b) }
{
    if parted.reuse.is_some() || !parted_reads(parted.op, scope) {
        return Ok(false);
    }
    parts_are_counted(alloc, code, scope, &parted.parts)
}

/// No references, if the condition holds.
fn none_if(alloc: Global, holds: bool) -> Option<Vec<Var>>
    ensures holding { IfSome result (λ mine. IsTrue holds) }
    ensures empty { IfSome result (λ mine. mine.items ≡ []) }
    ensures found { IsTrue holds → IsSomeAnd result (λ mine. mine.items ≡ []) }
{
    if holds { Some(Vec::new(alloc)) } else { None }
}

//! Whether the cells of a loop use an array in selections at their own index alone.

ghost use Rattle.std.specs.Prelude.{◌≡◌, IfOk, OnOk, map};
ghost use Rattle.counted_code.specs.Pieces.{code_gen_term, code_part_term, code_parts_of};
ghost use Rattle.counted_code.specs.Terms.{Binding, CodeTerm};
ghost use Rattle.counted_code.specs.View.{code_term, step_term, steps_before, code_right_term, code_with_term, code_parted_term};
ghost use Rattle.counted_marks.specs.Marks.{own_parts as own_in_parts};
ghost use Rattle.fact_table.specs.Table.{facts_of};
ghost use Rattle.index_table.specs.Table.{index_of};
ghost use Rattle.plain_facts.specs.Called.{shapes_of};
ghost use Rattle.reuse_candidates.specs.Cells.{block_tells, cell_mark, gen_is_own, is_own as is_own_term, known_in_cell};
ghost use Rattle.reuse_candidates.specs.Cells.{outer_is_own, part_is_own, right_is_own, right_tells, seen, told_if, undone};

use crate::cells::{CellScope, Search};
use crate::heads::{avoids_head, own_relation};
use crate::plain::{
    call_values, common_values, known_results, nothing_if, parted_values, plain_values, turn_values,
};
use core_ir::Var;
use core_uses::avoids_all;
use counted_code::{
    CodeBlock, CodeGen, CodeLet, CodePart, CodeParted, CodeRight, CodeStep, CodeWith,
};
use fact_table::{FactTable, Known};
use index_table::{IndexTable, Relation};
use plain_facts::CalledShapes;
use sac_base::Memory;
use std::alloc::Global;
use std::mem;

/// Whether all parts of a loop use an array in selections at their own index alone, and keep no reference to it.
///
/// The facts are those before the loop, and are left as they were.
///
/// # Errors
///
/// `Memory`: there is none for what is known of a variable.
pub fn own_parts(
    alloc: Global,
    array: Var,
    parts: &[CodePart],
    called: &CalledShapes,
    facts: &mut FactTable,
) -> Result<bool, Memory>
    ensures own { IfOk result (λ own. own ≡ own_in_parts (shapes_of called.now) array (code_parts_of (map code_part_term parts.now)) (facts_of facts.old)) }
    ensures facts { OnOk result (facts.new ≡ facts.old) }
{
    for part in parts {
        let search = Search {
            alloc,
            array,
            axes: part.grid.axes().len(),
            called,
        };
        if !is_own_outer(&search, part, facts)? {
            return Ok(false);
        }
    }
    Ok(true)
}

// The table is taken out of its place meanwhile.
fn is_own_outer(search: &Search<'_>, part: &CodePart, facts: &mut FactTable) -> Result<bool, Memory>
    ensures own { IfOk result (λ own. own ≡ outer_is_own search.now (code_part_term part.now) (facts_of facts.old)) }
    ensures facts { OnOk result (facts.new ≡ facts.old) }
{
    let relation = own_relation(search.alloc, search.axes)?;
    let mut scope = CellScope {
        facts: mem::replace(facts, FactTable::new(search.alloc)),
        indices: IndexTable::new(search.alloc),
    };
    let own = is_own_part(search, part, relation, &mut scope);
    *facts = scope.facts;
    own
}

/// Whether a block uses the array in selections at the own index alone.
///
/// The scope has what is known before the block, here and below, and is left as it was where nothing else is said.
#[cycle(own)]
fn is_own(search: &Search<'_>, block: &CodeBlock, scope: &mut CellScope) -> Result<bool, Memory>
    ensures own { IfOk result (λ own. own ≡ is_own_term search.now (code_term block.now) (known_in_cell scope.old)) }
    ensures scope { OnOk result (scope.new ≡ scope.old) }
{
    Ok(block_values(search, block, scope)?.is_some())
}

/// What is known of the results of a block, where it uses the array in selections at the own index alone. There is nothing exactly where it does not.
#[cycle(own)]
fn block_values(
    search: &Search<'_>,
    block: &CodeBlock,
    scope: &mut CellScope,
) -> Result<Option<Vec<Known>>, Memory>
    ensures known { IfOk result (λ found. seen found ≡ block_tells search.now (code_term block.now) (known_in_cell scope.old)) }
    ensures scope { OnOk result (scope.new ≡ scope.old) }
{
    let before = scope.mark();
    let passed = pass_steps(search, &block.steps, scope)?;
    let found = known_results(search, passed, &block.results, scope)?;
    scope.undo(before);
    Ok(found)
}

/// Learns what steps tell, up to the first that uses the array in another way. True exactly where there is none.
#[cycle(own)]
fn pass_steps(
    search: &Search<'_>,
    steps: &[CodeStep],
    scope: &mut CellScope,
) -> Result<bool, Memory>
    ensures own { IfOk result (λ passed. (end : CodeTerm) → block_tells search.now (steps_before steps.now end) (known_in_cell scope.old)
        ≡ told_if passed (block_tells search.now end (known_in_cell scope.new))) }
    ensures behind { OnOk result (undone (cell_mark scope.old) scope.new ≡ scope.old) }
{
    for step in steps {
        if !pass_step(search, step, scope)? {
            return Ok(false);
        }
    }
    Ok(true)
}

#[cycle(own)]
fn pass_step(search: &Search<'_>, step: &CodeStep, scope: &mut CellScope) -> Result<bool, Memory>
    ensures own { IfOk result (λ passed. (end : CodeTerm) → block_tells search.now (step_term step.now end) (known_in_cell scope.old)
        ≡ told_if passed (block_tells search.now end (known_in_cell scope.new))) }
    ensures behind { OnOk result (undone (cell_mark scope.old) scope.new ≡ scope.old) }
{
    match step {
        CodeStep::Bind(binding) => pass_binding(search, binding, scope),
        CodeStep::Keep(x) => Ok(avoids_all(search.array, &[*x])),
        CodeStep::Release(_) => Ok(true),
    }
}

/// Learns what a binding tells, if it uses the array in selections at the own index alone.
#[cycle(own)]
fn pass_binding(
    search: &Search<'_>,
    binding: &CodeLet,
    scope: &mut CellScope,
) -> Result<bool, Memory>
    ensures own { IfOk result (λ passed. (end : CodeTerm)
        → block_tells search.now (Binding binding.now.targets.items binding.now.site (code_right_term binding.now.right) end) (known_in_cell scope.old)
        ≡ told_if passed (block_tells search.now end (known_in_cell scope.new))) }
    ensures behind { OnOk result (undone (cell_mark scope.old) scope.new ≡ scope.old) }
{
    match right_values(search, &binding.right, scope)? {
        Some(values) => {
            scope.learn(search.alloc, binding, search.axes, values)?;
            Ok(true)
        }
        None => Ok(false),
    }
}

/// What is known of the values of a right side, where it uses the array in selections at the own index alone.
#[cycle(own)]
fn right_values(
    search: &Search<'_>,
    right: &CodeRight,
    scope: &mut CellScope,
) -> Result<Option<Vec<Known>>, Memory>
    ensures known { IfOk result (λ found. seen found ≡ right_tells search.now (code_right_term right.now) (known_in_cell scope.old)) }
    ensures scope { OnOk result (scope.new ≡ scope.old) }
{
    match right {
        CodeRight::If { cond, yes, no } => {
            if !avoids_all(search.array, &[*cond]) {
                return Ok(None);
            }
            let Some(first) = block_values(search, yes, scope)? else {
                return Ok(None);
            };
            let second = block_values(search, no, scope)?;
            common_values(search, &first, second)
        }
        CodeRight::Loop {
            start,
            params,
            test,
            body,
            ..
        } => {
            if !avoids_all(search.array, start) {
                return Ok(None);
            }
            let before = scope.enter_turn(search.alloc, params)?;
            let tested = is_own(search, test, scope)?;
            let turned = is_own(search, body, scope)?;
            scope.undo(before);
            Ok(turn_values(search, tested, turned))
        }
        CodeRight::Call { group, args } => call_values(search, *group, args, scope),
        CodeRight::With(with) => {
            let own = is_own_with(search, with, scope)?;
            Ok(nothing_if(search, own))
        }
        CodeRight::Parted(parted) => {
            let own = is_own_parted(search, parted, scope)?;
            parted_values(search, own, parted)
        }
        plain => plain_values(search, plain, scope),
    }
}

#[cycle(own)]
fn is_own_with(search: &Search<'_>, with: &CodeWith, scope: &mut CellScope) -> Result<bool, Memory>
    ensures own { IfOk result (λ own. own ≡ right_is_own search.now (code_with_term with.now) (known_in_cell scope.old)) }
    ensures scope { OnOk result (scope.new ≡ scope.old) }
{
    if !avoids_all(search.array, with.op.operands().as_slice()) {
        return Ok(false);
    }
    for generator in &with.gens {
        if !is_own_gen(search, generator, scope)? {
            return Ok(false);
        }
    }
    Ok(true)
}

#[cycle(own)]
fn is_own_gen(
    search: &Search<'_>,
    generator: &CodeGen,
    scope: &mut CellScope,
) -> Result<bool, Memory>
    ensures own { IfOk result (λ own. own ≡ gen_is_own search.now (code_gen_term generator.now) (known_in_cell scope.old)) }
    ensures scope { OnOk result (scope.new ≡ scope.old) }
{
    if !avoids_head(search.array, generator) {
        return Ok(false);
    }
    let before = scope.enter_gen(search.alloc, generator)?;
    let own = is_own(search, &generator.body, scope)?;
    scope.undo(before);
    Ok(own)
}

#[cycle(own)]
fn is_own_parted(
    search: &Search<'_>,
    parted: &CodeParted,
    scope: &mut CellScope,
) -> Result<bool, Memory>
    ensures own { IfOk result (λ own. own ≡ right_is_own search.now (code_parted_term parted.now) (known_in_cell scope.old)) }
    ensures scope { OnOk result (scope.new ≡ scope.old) }
{
    if !avoids_all(search.array, parted.op.operands().as_slice()) {
        return Ok(false);
    }
    for part in &parted.parts {
        if !is_own_part(search, part, Relation::Other, scope)? {
            return Ok(false);
        }
    }
    Ok(true)
}

/// The same of a part, whose index is this beside the index that is looked for.
#[cycle(own)]
fn is_own_part(
    search: &Search<'_>,
    part: &CodePart,
    relation: Relation,
    scope: &mut CellScope,
) -> Result<bool, Memory>
    ensures own { IfOk result (λ own. own ≡ part_is_own search.now (index_of relation) (code_part_term part.now) (known_in_cell scope.old)) }
    ensures scope { OnOk result (scope.new ≡ scope.old) }
{
    let before = scope.enter_part(search.alloc, part, relation)?;
    let own = is_own(search, &part.body, scope)?;
    scope.undo(before);
    Ok(own)
}

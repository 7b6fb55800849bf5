//! One walk over a block that sets marks in the place of releases.

ghost use Rattle.std.specs.Prelude.{◌≡◌, [], IfOk, List, OnOk};
ghost use Rattle.core_ir.specs.declared.tree.Var.{Var as Variable};
ghost use Rattle.counted_code.specs.Terms.{core_of, core_of_right, Binding, CodeTerm, Giving, Releasing};
ghost use Rattle.counted_code.specs.View.{code_term, code_right_term, code_with_term, code_parted_term, step_term, steps_before};
ghost use Rattle.counted_marks.specs.Known.{learned};
ghost use Rattle.counted_marks.specs.Marking.{choice, marking, marking_right, released_by, with_mark};
ghost use Rattle.reuse_candidates.specs.Calls.{given_by};
ghost use Rattle.counted_code.specs.Pieces.{code_gen_term, code_part_term};
ghost use Rattle.reuse_candidates.specs.Scopes.{known_in, mark_of, taken_back, told, told_block, told_right};
ghost use Rattle.buffer_reuse.specs.Marked.{is_taken as taken_is, made_with, marking_gen, marking_part};

use crate::rights::{
    MarkedRight, either_values, mark_call, mark_plain, parted_values, start_values, with_taken,
    with_values,
};
use core_ir::Var;
use counted_code::{
    CodeBlock, CodeGen, CodeLet, CodePart, CodeParted, CodeRight, CodeStep, CodeWith,
};
use reuse_candidates::{Calls, Scope, Values, choose, copy_vars};
use sac_base::Memory;
use std::alloc::Global;

/// A block with its marks, and what is known of its results.
#[derive(Drop)]
pub struct MarkedBlock {
    pub block: CodeBlock,
    pub values: Values,
}

/// What stands of a block: its steps, and the array that the last loop takes over, until that array's release is passed.
#[derive(Drop)]
struct Made {
    steps: Vec<CodeStep>,
    taken: Option<Var>,
}

/// The block with its marks. The scope has what is known before it, and is left as it was.
///
/// # Errors
///
/// `Memory`: there is none for a step, or for what is known of a variable.
#[cycle(marks)]
pub fn mark_block(
    alloc: Global,
    block: &CodeBlock,
    calls: &Calls,
    scope: &mut Scope,
) -> Result<MarkedBlock, Memory>
    ensures marked { IfOk result (λ r. code_term r.block ≡ marking (given_by calls.now) (code_term block.now) (known_in scope.old)) }
    ensures known { IfOk result (λ r. told r.values ≡ told_block (given_by calls.now) (core_of (code_term block.now)) (known_in scope.old)) }
    ensures scope { OnOk result (scope.new ≡ scope.old) }
{
    let before = scope.mark();
    let mut made = Made {
        steps: Vec::new(alloc),
        taken: None,
    };
    let steps = block.steps.as_slice();
    for i in 0..steps.len() {
        mark_step(alloc, &steps[i], &steps[i + 1..], calls, scope, &mut made)?;
    }
    let values = scope.values(alloc, &block.results)?;
    scope.undo(before);
    Ok(MarkedBlock {
        block: CodeBlock {
            steps: made.steps,
            results: copy_vars(alloc, &block.results)?,
        },
        values,
    })
}

/// Appends a step with its marks, and learns what it tells. `later` are the steps behind it.
#[cycle(marks)]
fn mark_step(
    alloc: Global,
    step: &CodeStep,
    later: &[CodeStep],
    calls: &Calls,
    scope: &mut Scope,
    made: &mut Made,
) -> Result<(), Memory>
    ensures marked { OnOk result ((results : List Variable) →
        made_with (given_by calls.now) made.new (known_in scope.new) (steps_before later.now (Giving results))
        ≡ made_with (given_by calls.now) made.old (known_in scope.old) (step_term step.now (steps_before later.now (Giving results)))) }
    ensures known { OnOk result ((rest : CodeTerm) → told_block (given_by calls.now) (core_of rest) (known_in scope.new)
        ≡ told_block (given_by calls.now) (core_of (step_term step.now rest)) (known_in scope.old)) }
    ensures behind { OnOk result (taken_back (mark_of scope.old) scope.new ≡ scope.old) }
{
    match step {
        CodeStep::Bind(binding) => {
            mark_binding(alloc, binding, later, calls, scope, made)?;
            Ok(())
        }
        CodeStep::Keep(x) => {
            made.steps.push(CodeStep::Keep(*x))?;
            Ok(())
        }
        CodeStep::Release(x) => {
            pass_release(*x, made)?;
            Ok(())
        }
    }
}

/// Appends a release, if it is not that of the array that is taken over.
fn pass_release(x: Var, made: &mut Made) -> Result<(), Memory>
    ensures { OnOk result ((rest : CodeTerm)
        → steps_before made.new.steps.items (released_by made.new.taken rest)
        ≡ steps_before made.old.steps.items (released_by made.old.taken (Releasing x rest))) }
{
    if is_taken(made.taken, x) {
        made.taken = None;
        return Ok(());
    }
    made.steps.push(CodeStep::Release(x))?;
    Ok(())
}

/// Whether a variable is the array that is taken over.
fn is_taken(taken: Option<Var>, x: Var) -> bool
    ensures { result ≡ taken_is taken x }
{
    match taken {
        Some(array) => array.0 == x.0,
        None => false,
    }
}

/// Appends a binding with its marks, and learns what it tells.
#[cycle(marks)]
fn mark_binding(
    alloc: Global,
    binding: &CodeLet,
    later: &[CodeStep],
    calls: &Calls,
    scope: &mut Scope,
    made: &mut Made,
) -> Result<(), Memory>
    ensures marked { OnOk result ((rest : CodeTerm) → steps_before made.new.steps.items rest
        ≡ steps_before made.old.steps.items (Binding binding.now.targets.items binding.now.site
        (with_mark made.new.taken (marking_right (given_by calls.now) (code_right_term binding.now.right) (known_in scope.old))) rest)) }
    ensures chosen { OnOk result (made.new.taken ≡ choice (given_by calls.now) (known_in scope.old)
        binding.now.targets.items (code_right_term binding.now.right) (steps_before later.now (Giving []))) }
    ensures learned { OnOk result (known_in scope.new ≡ learned (given_by calls.now) (known_in scope.old) binding.now.targets.items
        (core_of_right (code_right_term binding.now.right))) }
    ensures behind { OnOk result (taken_back (mark_of scope.old) scope.new ≡ scope.old) }
{
    let taken = choose(alloc, &binding.targets, &binding.right, later, calls, scope)?;
    let marked = mark_right(alloc, &binding.right, calls, scope)?;
    let MarkedRight { right, values } = marked;
    scope.learn(&binding.targets, values)?;
    made.steps.push(CodeStep::Bind(CodeLet {
        targets: copy_vars(alloc, &binding.targets)?,
        site: binding.site,
        right: with_taken(right, taken),
    }))?;
    made.taken = taken;
    Ok(())
}

/// The right side with its marks, and what is known of its values.
#[cycle(marks)]
fn mark_right(
    alloc: Global,
    right: &CodeRight,
    calls: &Calls,
    scope: &mut Scope,
) -> Result<MarkedRight, Memory>
    ensures marked { IfOk result (λ r. code_right_term r.right ≡ marking_right (given_by calls.now) (code_right_term right.now) (known_in scope.old)) }
    ensures known { IfOk result (λ r. told r.values ≡ told_right (given_by calls.now) (core_of_right (code_right_term right.now)) (known_in scope.old)) }
    ensures scope { OnOk result (scope.new ≡ scope.old) }
{
    match right {
        CodeRight::If { cond, yes, no } => {
            let first = mark_block(alloc, yes, calls, scope)?;
            let second = mark_block(alloc, no, calls, scope)?;
            Ok(MarkedRight {
                values: either_values(alloc, &first.values, &second.values)?,
                right: CodeRight::If {
                    cond: *cond,
                    yes: first.block,
                    no: second.block,
                },
            })
        }
        CodeRight::Loop {
            first_body,
            start,
            params,
            test,
            body,
            test_site,
        } => {
            let before = scope.mark();
            let values = start_values(alloc, start, scope)?;
            scope.enter_loop(alloc, params, start)?;
            let tested = mark_block(alloc, test, calls, scope)?;
            let turned = mark_block(alloc, body, calls, scope)?;
            scope.undo(before);
            Ok(MarkedRight {
                right: CodeRight::Loop {
                    first_body: *first_body,
                    start: copy_vars(alloc, start)?,
                    params: copy_vars(alloc, params)?,
                    test: tested.block,
                    body: turned.block,
                    test_site: *test_site,
                },
                values,
            })
        }
        CodeRight::Call { group, args } => mark_call(alloc, *group, args, calls),
        CodeRight::With(with) => Ok(MarkedRight {
            values: with_values(alloc, with.op, scope)?,
            right: CodeRight::With(mark_with(alloc, with, calls, scope)?),
        }),
        CodeRight::Parted(parted) => Ok(MarkedRight {
            values: parted_values(alloc, &parted.frame, parted.base, &parted.cell, parted.op)?,
            right: CodeRight::Parted(mark_parted(alloc, parted, calls, scope)?),
        }),
        plain => mark_plain(alloc, plain, scope),
    }
}

#[cycle(marks)]
fn mark_with(
    alloc: Global,
    with: &CodeWith,
    calls: &Calls,
    scope: &mut Scope,
) -> Result<CodeWith, Memory>
    ensures marked { IfOk result (λ w. code_with_term w ≡ marking_right (given_by calls.now) (code_with_term with.now) (known_in scope.old)) }
    ensures scope { OnOk result (scope.new ≡ scope.old) }
{
    let mut gens = Vec::new(alloc);
    for generator in &with.gens {
        gens.push(mark_gen(alloc, generator, calls, scope)?)?;
    }
    Ok(CodeWith { gens, op: with.op })
}

#[cycle(marks)]
fn mark_gen(
    alloc: Global,
    generator: &CodeGen,
    calls: &Calls,
    scope: &mut Scope,
) -> Result<CodeGen, Memory>
    ensures marked { IfOk result (λ r. code_gen_term r ≡ marking_gen (given_by calls.now) (code_gen_term generator.now) (known_in scope.old)) }
    ensures scope { OnOk result (scope.new ≡ scope.old) }
{
    let before = scope.mark();
    scope.enter_gen(alloc, generator.index, &generator.names)?;
    let marked = mark_block(alloc, &generator.body, calls, scope)?;
    scope.undo(before);
    Ok(CodeGen {
        lower: generator.lower,
        lower_closed: generator.lower_closed,
        upper: generator.upper,
        upper_closed: generator.upper_closed,
        step: generator.step,
        width: generator.width,
        index: generator.index,
        names: copy_vars(alloc, &generator.names)?,
        body: marked.block,
        site: generator.site,
    })
}

#[cycle(marks)]
fn mark_parted(
    alloc: Global,
    parted: &CodeParted,
    calls: &Calls,
    scope: &mut Scope,
) -> Result<CodeParted, Memory>
    ensures marked { IfOk result (λ r. code_parted_term r ≡ marking_right (given_by calls.now) (code_parted_term parted.now) (known_in scope.old)) }
    ensures scope { OnOk result (scope.new ≡ scope.old) }
{
    let mut parts = Vec::new(alloc);
    for part in &parted.parts {
        parts.push(mark_part(alloc, part, calls, scope)?)?;
    }
    let frame = parted.frame.copy(alloc)?;
    let cell = parted.cell.copy();
    Ok(CodeParted {
        frame,
        base: parted.base,
        cell,
        op: parted.op,
        parts,
        reuse: parted.reuse,
    })
}

#[cycle(marks)]
fn mark_part(
    alloc: Global,
    part: &CodePart,
    calls: &Calls,
    scope: &mut Scope,
) -> Result<CodePart, Memory>
    ensures marked { IfOk result (λ r. code_part_term r ≡ marking_part (given_by calls.now) (code_part_term part.now) (known_in scope.old)) }
    ensures scope { OnOk result (scope.new ≡ scope.old) }
{
    let before = scope.mark();
    scope.enter_part(alloc, part.index, &part.grid)?;
    let marked = mark_block(alloc, &part.body, calls, scope)?;
    scope.undo(before);
    Ok(CodePart {
        grid: part.grid.copy(alloc)?,
        index: part.index,
        body: marked.block,
        site: part.site,
    })
}

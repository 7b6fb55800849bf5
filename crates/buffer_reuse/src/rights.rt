//! What is known of the values of right sides, and copies of right sides without blocks.

ghost use Rattle.std.specs.Prelude.{◌≡◌, ◌∷◌, [], IfOk, Some};
ghost use Rattle.counted_code.specs.Terms.{core_of_right, CallCode};
ghost use Rattle.counted_code.specs.View.{code_parted_term, code_right_term};
ghost use Rattle.counted_marks.specs.Marking.{with_mark};
ghost use Rattle.fact_table.specs.Table.{fact_of};
ghost use Rattle.reuse_candidates.specs.Calls.{given_by};
ghost use Rattle.reuse_candidates.specs.Plain.{plain_code};
ghost use Rattle.reuse_candidates.specs.Scopes.{known_in, told};
ghost use Rattle.buffer_reuse.specs.Rights.{call_told, either_told, one_told, parted_told, plain_told, start_told, with_told};

use core_ir::{CoreOp, PartedOp, Var};
use counted_code::{CodeParted, CodeRight};
use fact_table::Known;
use plain_facts::{common_facts, parted_shape, plain_fact};
use reuse_candidates::{
    Calls, Scope, Values, bases_at, copy_plain, copy_vars, core_right, either_bases, loop_base,
    plain_base,
};
use sac_base::{Base, Grid, Memory, Shape};
use std::alloc::Global;

/// A right side with its marks, and what is known of its values.
#[derive(Drop)]
pub struct MarkedRight {
    pub right: CodeRight,
    pub values: Values,
}

/// A right side without blocks and calls, in which there is nothing to mark.
///
/// # Errors
///
/// `Memory`: there is none for the copy, or for what is known. This and the calls below have no other error.
pub fn mark_plain(alloc: Global, right: &CodeRight, scope: &Scope) -> Result<MarkedRight, Memory>
    ensures marked { IfOk result (λ r. code_right_term r.right ≡ plain_code (code_right_term right.now)) }
    ensures known { IfOk result (λ r. told r.values ≡ plain_told (core_of_right (code_right_term right.now)) (known_in scope.now)) }
{
    let core = core_right(alloc, right)?;
    let known = plain_fact(alloc, &core, &scope.facts)?;
    Ok(MarkedRight {
        right: copy_plain(alloc, right)?,
        values: one_value(alloc, known, plain_base(right, &scope.bases))?,
    })
}

/// A call.
pub fn mark_call(
    alloc: Global,
    group: u32,
    args: &[Var],
    calls: &Calls,
) -> Result<MarkedRight, Memory>
    ensures marked { IfOk result (λ r. code_right_term r.right ≡ CallCode group args.now) }
    ensures known { IfOk result (λ r. told r.values ≡ call_told (given_by calls.now) group) }
{
    Ok(MarkedRight {
        right: CodeRight::Call {
            group,
            args: copy_vars(alloc, args)?,
        },
        values: Values {
            known: calls.shapes.facts(alloc, group)?,
            bases: Vec::from_slice(alloc, calls.bases.at(group))?,
        },
    })
}

/// A right side that takes over an array, if there is one.
pub fn with_taken(right: CodeRight, taken: Option<Var>) -> CodeRight
    ensures { code_right_term result ≡ with_mark taken (code_right_term right) }
{
    match taken {
        Some(array) => taking(right, array),
        None => right,
    }
}

fn taking(right: CodeRight, array: Var) -> CodeRight
    ensures { code_right_term result ≡ with_mark (Some array) (code_right_term right) }
{
    match right {
        CodeRight::Parted(parted) => CodeRight::Parted(loop_taking(parted, array)),
        other => other,
    }
}

fn loop_taking(parted: CodeParted, array: Var) -> CodeParted
    ensures { code_parted_term result ≡ with_mark (Some array) (code_parted_term parted) }
{
    let CodeParted {
        frame,
        base,
        cell,
        op,
        parts,
        ..
    } = parted;
    CodeParted {
        frame,
        base,
        cell,
        op,
        parts,
        reuse: Some(array),
    }
}

/// What is known of the results of a conditional, from what is known of those of its two blocks.
pub fn either_values(alloc: Global, a: &Values, b: &Values) -> Result<Values, Memory>
    ensures { IfOk result (λ values. told values ≡ either_told (told a.now) (told b.now)) }
{
    Ok(Values {
        known: common_facts(alloc, &a.known, &b.known)?,
        bases: either_bases(alloc, &a.bases, &b.bases)?,
    })
}

/// What is known of the results of a loop with these first values of its parameters.
pub fn start_values(alloc: Global, start: &[Var], scope: &Scope) -> Result<Values, Memory>
    ensures { IfOk result (λ values. told values ≡ start_told (known_in scope.now) start.now) }
{
    Ok(Values {
        known: Vec::new(alloc),
        bases: bases_at(alloc, &scope.bases, start)?,
    })
}

/// What is known of the result of a with-loop.
pub fn with_values(alloc: Global, op: CoreOp, scope: &Scope) -> Result<Values, Memory>
    ensures { IfOk result (λ values. told values ≡ with_told (known_in scope.now) op) }
{
    Ok(Values {
        known: Vec::new(alloc),
        bases: one_base(alloc, loop_base(op, &scope.bases))?,
    })
}

/// What is known of the result of a parted loop.
pub fn parted_values(
    alloc: Global,
    frame: &Grid,
    base: Base,
    cell: &Shape,
    op: PartedOp,
) -> Result<Values, Memory>
    ensures { IfOk result (λ values. told values ≡ parted_told frame.now base cell.now op) }
{
    let shape = parted_shape(alloc, frame, cell, op);
    one_value(alloc, Known::of_shape(shape), Some(base))
}

fn one_value(alloc: Global, known: Known, base: Option<Base>) -> Result<Values, Memory>
    ensures { IfOk result (λ values. told values ≡ one_told (fact_of known) base) }
{
    let mut all = Vec::new(alloc);
    all.push(known)?;
    Ok(Values {
        known: all,
        bases: one_base(alloc, base)?,
    })
}

fn one_base(alloc: Global, base: Option<Base>) -> Result<Vec<Option<Base>>, Memory>
    ensures { IfOk result (λ bases. bases.items ≡ base ∷ []) }
{
    let mut all = Vec::new(alloc);
    all.push(base)?;
    Ok(all)
}

//! The array that a loop takes over.

ghost use Rattle.std.specs.Prelude.{◌≡◌, [], IfOk, OnOk, if◌then◌else◌};
ghost use Rattle.counted_code.specs.Terms.{Giving};
ghost use Rattle.counted_code.specs.Values.{is_small as is_small_shape};
ghost use Rattle.counted_code.specs.View.{steps_before, code_parted_term, code_right_term};
ghost use Rattle.counted_marks.specs.Marking.{choice, is_base as base_is, is_known_shape, least, lesser as lesser_of, released_next};
ghost use Rattle.counted_laws.specs.mark_places.Places.{releases_next as is_released_next};
ghost use Rattle.reuse_candidates.specs.Calls.{given_by};
ghost use Rattle.reuse_candidates.specs.Chosen.{buffer_of, fits as fits_of, has_form as form_is, large as large_of, takes};
ghost use Rattle.reuse_candidates.specs.Scopes.{known_in};

use crate::bases::base_at;
use crate::calls::Calls;
use crate::own::own_parts;
use crate::rules::lesser;
use crate::scope::Scope;
use core_ir::{PartedOp, Var};
use core_uses::avoids_all;
use counted_code::{CodePart, CodeParted, CodeRight, CodeStep};
use plain_facts::parted_shape;
use sac_base::{Base, Grid, Memory, Shape, same_base, same_shape};
use std::alloc::Global;

/// The array of the least number that a right side may take over, where it is a parted loop without a mark: of those that are released before the next
/// binding. `targets` are the variables that it is bound to, and `later` the steps behind it.
///
/// The scope has what is known before the loop, and is left as it was.
///
/// # Errors
///
/// `Memory`: there is none for what is known of a variable.
pub fn choose(
    alloc: Global,
    targets: &[Var],
    right: &CodeRight,
    later: &[CodeStep],
    calls: &Calls,
    scope: &mut Scope,
) -> Result<Option<Var>, Memory>
    ensures chosen { IfOk result (λ found. found
        ≡ choice (given_by calls.now) (known_in scope.old) targets.now (code_right_term right.now) (steps_before later.now (Giving []))) }
    ensures scope { OnOk result (scope.new ≡ scope.old) }
{
    match right {
        CodeRight::Parted(parted) => choose_for(alloc, targets, parted, later, calls, scope),
        _ => Ok(None),
    }
}

/// A parted loop that makes an array of this base and shape: what it is bound to, its parts, and the steps behind it.
#[derive(Clone, Copy)]
struct Maker<'a> {
    targets: &'a [Var],
    base: Base,
    shape: &'a Shape,
    parts: &'a [CodePart],
    later: &'a [CodeStep],
}

fn choose_for(
    alloc: Global,
    targets: &[Var],
    parted: &CodeParted,
    later: &[CodeStep],
    calls: &Calls,
    scope: &mut Scope,
) -> Result<Option<Var>, Memory>
    ensures chosen { IfOk result (λ found. found
        ≡ choice (given_by calls.now) (known_in scope.old) targets.now (code_parted_term parted.now) (steps_before later.now (Giving []))) }
    ensures scope { OnOk result (scope.new ≡ scope.old) }
{
    if parted.reuse.is_some() {
        return Ok(None);
    }
    let Some(shape) = buffer_shape(alloc, &parted.frame, &parted.cell, parted.op) else {
        return Ok(None);
    };
    let maker = Maker {
        targets,
        base: parted.base,
        shape: &shape,
        parts: &parted.parts,
        later,
    };
    least_taken(alloc, &maker, calls, scope)
}

/// The least of the arrays that are released before the next binding and may be taken over.
fn least_taken(
    alloc: Global,
    maker: &Maker<'_>,
    calls: &Calls,
    scope: &mut Scope,
) -> Result<Option<Var>, Memory>
    ensures chosen { IfOk result (λ found. found ≡ least (takes (given_by calls.now) (known_in scope.old) maker.now) None
        (released_next (steps_before maker.now.later.now (Giving [])))) }
    ensures scope { OnOk result (scope.new ≡ scope.old) }
{
    let mut found = None;
    for step in maker.later {
        match step {
            CodeStep::Bind(_) => return Ok(found),
            CodeStep::Keep(_) => {}
            CodeStep::Release(x) => {
                let taken = may_take(alloc, *x, maker, calls, scope)?;
                found = lesser_if(taken, *x, found);
            }
        }
    }
    Ok(found)
}

/// Whether the loop may write its result over an array: it fits, and the cells use it at their own index alone.
fn may_take(
    alloc: Global,
    x: Var,
    maker: &Maker<'_>,
    calls: &Calls,
    scope: &mut Scope,
) -> Result<bool, Memory>
    ensures taken { IfOk result (λ taken. taken ≡ takes (given_by calls.now) (known_in scope.old) maker.now x) }
    ensures scope { OnOk result (scope.new ≡ scope.old) }
{
    if !fits(x, maker, scope) {
        return Ok(false);
    }
    own_parts(alloc, x, maker.parts, &calls.shapes, &mut scope.facts)
}

/// Whether a variable is known to have the result's base and shape, was there before the loop, and is released next.
fn fits(x: Var, maker: &Maker<'_>, scope: &Scope) -> bool
    ensures { result ≡ fits_of (known_in scope.now) maker.now x }
{
    has_form(x, maker.base, maker.shape, scope)
        && avoids_all(x, maker.targets)
        && is_released(x, maker.later)
}

/// The shape of a parted loop's result, where the loop makes an array of scalar cells that has a buffer.
fn buffer_shape(alloc: Global, frame: &Grid, cell: &Shape, op: PartedOp) -> Option<Shape>
    ensures { result ≡ buffer_of frame.now cell.now op }
{
    if cell.rank() != 0 {
        return None;
    }
    match op {
        PartedOp::Fold { .. } => None,
        _ => large(parted_shape(alloc, frame, cell, op)),
    }
}

fn large(shape: Option<Shape>) -> Option<Shape>
    ensures { result ≡ large_of shape }
{
    match shape {
        Some(shape) if !is_small(&shape) => Some(shape),
        _ => None,
    }
}

/// Whether an array of a shape has no buffer: it is a scalar, or a vector of at most 8 elements.
fn is_small(shape: &Shape) -> bool
    ensures { result ≡ is_small_shape shape.now }
{
    match shape.extents() {
        [] => true,
        [n] => *n <= 8,
        _ => false,
    }
}

/// Whether a variable is known to have a base and a shape.
fn has_form(x: Var, base: Base, shape: &Shape, scope: &Scope) -> bool
    ensures { result ≡ form_is (known_in scope.now) base shape.now x }
{
    is_base(base, base_at(&scope.bases, x)) && is_shape(shape, &scope.facts.fact(x).shape)
}

fn is_base(base: Base, known: Option<Base>) -> bool
    ensures { result ≡ base_is base known }
{
    match known {
        Some(other) => same_base(other, base),
        None => false,
    }
}

fn is_shape(shape: &Shape, known: &Option<Shape>) -> bool
    ensures { result ≡ is_known_shape shape.now known.now }
{
    match known {
        Some(other) => same_shape(other, shape),
        None => false,
    }
}

/// Whether the first step before the next binding that names a variable releases it.
fn is_released(x: Var, steps: &[CodeStep]) -> bool
    ensures { result ≡ is_released_next x (steps_before steps.now (Giving [])) }
{
    for step in steps {
        match step {
            CodeStep::Bind(_) => return false,
            CodeStep::Keep(y) => {
                if x.0 == y.0 {
                    return false;
                }
            }
            CodeStep::Release(y) => {
                if x.0 == y.0 {
                    return true;
                }
            }
        }
    }
    false
}

/// The lesser of a variable that fits and of one that was found before.
fn lesser_if(fits: bool, x: Var, found: Option<Var>) -> Option<Var>
    ensures { result ≡ (if fits then lesser_of x found else found) }
{
    if fits { lesser(x, found) } else { found }
}

//! Which function a call takes.

ghost use Rattle.std.specs.Prelude.{◌≡◌, ◌<◌, IfSome, IsTrue, length, slice_get};
ghost use Rattle.core_ir.specs.Outcome.{instances};
ghost use Rattle.counted_code.specs.View.{code_program};
ghost use Rattle.kernel_callees.specs.Choosing.{Decides, TakesPlace, are_least, beside_at, functions_of, least_at, types_of};
ghost use Rattle.kernel_callees.specs.Instances.{AreIn, IsInstance};
ghost use Rattle.sac_base.specs.Types.{all_below as are_all_below, all_have};

use core_ir::Var;
use counted_code::{Code, CodeFun};
use kernel_code::fits;
use kernel_tree::Held;
use sac_base::ArrayType;
use shape_types::below;
use std::alloc::Global;

/// The place of the function that a call of a group takes, where base and rank of the arguments decide it. None says nothing.
pub fn instance_of(alloc: Global, code: &Code, group: u32, args: &[Held]) -> Option<usize>
    ensures is { IfSome result (λ place. IsInstance (code_program code.now) group args.now place) }
    ensures within { IfSome result (λ place. place < length code.now.functions.items) }
{
    match code.groups.get(group as usize) {
        Some(places) => choose_among(alloc, &code.functions, places, args),
        None => None,
    }
}

// The place of the first of the functions at the places that fits the arguments, with types below those of every other one that does.
fn choose_among(
    alloc: Global,
    functions: &[CodeFun],
    places: &[u32],
    args: &[Held],
) -> Option<usize>
    ensures told { IfSome result (TakesPlace (functions_of functions.now) places.now args.now) }
    ensures within { IfSome result (λ place. place < length functions.now) }
{
    for place in places {
        if is_least_at(alloc, functions, places, args, *place as usize)? {
            return Some(*place as usize);
        }
    }
    None
}

// Whether there is a function at a place that fits the arguments, with types below those of every other one at the places that does.
fn is_least_at(
    alloc: Global,
    functions: &[CodeFun],
    places: &[u32],
    args: &[Held],
    place: usize,
) -> Option<bool>
    ensures told { IfSome result
        (Decides args.now (least_at (instances (functions_of functions.now) places.now) place (slice_get (functions_of functions.now) place))) }
    ensures within { IfSome result (λ b. IsTrue b → place < length functions.now) }
{
    if place >= functions.len() {
        return Some(false);
    }
    is_least(alloc, functions, places, args, &functions[place].params)
}

// Whether parameters fit the arguments, with types below those of every function at the places that fits them too.
fn is_least(
    alloc: Global,
    functions: &[CodeFun],
    places: &[u32],
    args: &[Held],
    params: &[(Var, ArrayType)],
) -> Option<bool>
    ensures { IfSome result (Decides args.now (are_least (instances (functions_of functions.now) places.now) (types_of params.now))) }
{
    if !all_fit(alloc, params, args)? {
        return Some(false);
    }
    for place in places {
        if !is_beside_at(alloc, functions, params, args, *place as usize)? {
            return Some(false);
        }
    }
    Some(true)
}

// Whether there is no function at a place that fits the arguments, or parameters are below its own.
fn is_beside_at(
    alloc: Global,
    functions: &[CodeFun],
    params: &[(Var, ArrayType)],
    args: &[Held],
    place: usize,
) -> Option<bool>
    ensures { IfSome result (Decides args.now (beside_at (types_of params.now) (slice_get (functions_of functions.now) place))) }
{
    if place >= functions.len() {
        return Some(true);
    }
    let others = &functions[place].params;
    if all_below(params, others) {
        return Some(true);
    }
    let fit = all_fit(alloc, others, args)?;
    Some(!fit)
}

// Whether the arguments are in the types of the parameters, and as many.
fn all_fit(alloc: Global, params: &[(Var, ArrayType)], args: &[Held]) -> Option<bool>
    ensures { IfSome result (Decides args.now (all_have (types_of params.now))) }
{
    if params.len() != args.len() {
        return Some(false);
    }
    for k in 0..params.len() {
        if !fits(alloc, args[k], &params[k].1)? {
            return Some(false);
        }
    }
    Some(true)
}

// Whether the types of parameters are each below those of others, and as many.
fn all_below(params: &[(Var, ArrayType)], others: &[(Var, ArrayType)]) -> bool
    ensures { result ≡ are_all_below (types_of params.now) (types_of others.now) }
{
    if params.len() != others.len() {
        return false;
    }
    for k in 0..params.len() {
        if !below(&params[k].1, &others[k].1) {
            return false;
        }
    }
    true
}

/// Whether all that is held is in these types, where base and rank decide it, and as much. False says nothing.
pub fn are_in(alloc: Global, types: &[ArrayType], held: &[Held]) -> bool
    ensures { IsTrue result → AreIn types.now held.now }
{
    if types.len() != held.len() {
        return false;
    }
    for k in 0..types.len() {
        if !fits(alloc, held[k], &types[k]).unwrap_or(false) {
            return false;
        }
    }
    true
}

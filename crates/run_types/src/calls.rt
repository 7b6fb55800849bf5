//! Which function a call takes.

ghost use Rattle.std.specs.Prelude.{◌≡◌, ◌<◌, IfSome, IsTrue, length, slice_get};
ghost use Rattle.core_ir.specs.Outcome.{chosen, instances};
ghost use Rattle.counted_code.specs.Terms.{core_of_code};
ghost use Rattle.counted_code.specs.Values.{Heap};
ghost use Rattle.counted_code.specs.View.{code_program};
ghost use Rattle.run_types.specs.Choosing.{functions_of, types_of, least_in, least_at, beside_at, are_least};
ghost use Rattle.run_types.specs.Reading.{arrays_in};
ghost use Rattle.sac_base.specs.Types.{all_have, all_below as are_all_below};

use crate::values::value_has;
use core_ir::Var;
use counted_code::{Code, CodeFun};
use run_values::RunValue;
use sac_base::ArrayType;
use shape_types::below;

/// The place of the function that a call of a group takes: the first of the group's instances that fits the arguments, with types below those
/// of every other one that does.
pub fn choose(code: &Code, group: u32, args: &[RunValue]) -> Option<usize>
    ensures told { (h : Heap) → result ≡ chosen (core_of_code (code_program code.now)) group (arrays_in h args.now) }
    ensures within { IfSome result (λ place. place < length code.now.functions.items) }
{
    match code.groups.get(group as usize) {
        Some(places) => choose_among(&code.functions, places, args),
        None => None,
    }
}

fn choose_among(functions: &[CodeFun], places: &[u32], args: &[RunValue]) -> Option<usize>
    ensures told { (h : Heap) → result ≡ least_in (functions_of functions.now) places.now (arrays_in h args.now) }
    ensures within { IfSome result (λ place. place < length functions.now) }
{
    for place in places {
        if is_least_at(functions, places, args, *place as usize) {
            return Some(*place as usize);
        }
    }
    None
}

// Whether there is a function at a place that fits the arguments, with types below those of every other one at the places that does.
fn is_least_at(functions: &[CodeFun], places: &[u32], args: &[RunValue], place: usize) -> bool
    ensures told { (h : Heap)
        → result ≡ least_at (instances (functions_of functions.now) places.now) (arrays_in h args.now) place (slice_get (functions_of functions.now) place) }
    ensures within { IsTrue result → place < length functions.now }
{
    if place >= functions.len() {
        return false;
    }
    is_least(functions, places, args, &functions[place].params)
}

// Whether parameters fit the arguments, with types below those of every function at the places that fits them too.
fn is_least(
    functions: &[CodeFun],
    places: &[u32],
    args: &[RunValue],
    params: &[(Var, ArrayType)],
) -> bool
    ensures { (h : Heap) → result ≡ are_least (instances (functions_of functions.now) places.now) (arrays_in h args.now) (types_of params.now) }
{
    if !all_fit(params, args) {
        return false;
    }
    for place in places {
        if !is_beside_at(functions, params, args, *place as usize) {
            return false;
        }
    }
    true
}

// Whether there is no function at a place that fits the arguments, or parameters are below its own.
fn is_beside_at(
    functions: &[CodeFun],
    params: &[(Var, ArrayType)],
    args: &[RunValue],
    place: usize,
) -> bool
    ensures { (h : Heap) → result ≡ beside_at (types_of params.now) (arrays_in h args.now) (slice_get (functions_of functions.now) place) }
{
    if place >= functions.len() {
        return true;
    }
    let others = &functions[place].params;
    !all_fit(others, args) || all_below(params, others)
}

/// Whether the arguments are in the types of the parameters, and as many.
pub fn all_fit(params: &[(Var, ArrayType)], args: &[RunValue]) -> bool
    ensures { (h : Heap) → result ≡ all_have (types_of params.now) (arrays_in h args.now) }
{
    if params.len() != args.len() {
        return false;
    }
    for k in 0..params.len() {
        if !value_has(&params[k].1, &args[k]) {
            return false;
        }
    }
    true
}

// Whether the types of parameters are each below those of others, and as many.
fn all_below(params: &[(Var, ArrayType)], others: &[(Var, ArrayType)]) -> bool
    ensures { result ≡ are_all_below (types_of params.now) (types_of others.now) }
{
    if params.len() != others.len() {
        return false;
    }
    for k in 0..params.len() {
        if !below(&params[k].1, &others[k].1) {
            return false;
        }
    }
    true
}

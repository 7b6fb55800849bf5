//! Variables that are bound and read together.

ghost use Rattle.std.specs.Prelude.{◌≡◌, ◌++◌, OnOk, drop, map};
ghost use Rattle.sac_base.specs.Arrays.{scalar, vector};
ghost use Rattle.counted_code.specs.Machine.{Values, bind_value, bind_values, first_of as first_value_of};
ghost use Rattle.counted_code.specs.Values.{Small};
ghost use Rattle.run_loops.specs.Running.{Binds, vars_of};
ghost use Rattle.run_store.specs.Stands.{lender_of};
ghost use Rattle.run_values.specs.Scopes.{current};
ghost use Rattle.run_values.specs.Shown.{value_of};

use crate::state::State;
use core_ir::Var;
use run_values::{Few, RunValue};
use sac_base::{ArrayType, Base, Memory};

/// Binds variables to values, and those for which there is none to the number 0.
pub fn bind_all(state: &mut State<'_, '_>, vars: &[Var], values: &[RunValue]) -> Result<(), Memory>
    ensures bound { OnOk result (Binds state.old state.new (bind_values (current state.old.frames) vars.now (map value_of values.now))) }
    ensures lender { lender_of state.new.heap ≡ lender_of state.old.heap }
{
    for k in 0..vars.len() {
        state.frames.bind(vars[k], value_at(values, k))?;
    }
    Ok(())
}

/// Binds parameters to arguments, and those for which there is none to the number 0.
pub fn bind_params(
    state: &mut State<'_, '_>,
    params: &[(Var, ArrayType)],
    args: &[RunValue],
) -> Result<(), Memory>
    ensures bound { OnOk result (Binds state.old state.new (bind_values (current state.old.frames) (vars_of params.now) (map value_of args.now))) }
    ensures lender { lender_of state.new.heap ≡ lender_of state.old.heap }
{
    for k in 0..params.len() {
        state.frames.bind(params[k].0, value_at(args, k))?;
    }
    Ok(())
}

/// The value at a place, or that of a variable that is not bound.
pub fn value_at(values: &[RunValue], k: usize) -> RunValue
    ensures { value_of result ≡ first_value_of (drop k (map value_of values.now)) }
{
    match values.get(k) {
        Some(value) => *value,
        None => RunValue::Unbound,
    }
}

/// The value of the first variable.
pub fn first_of(state: &State<'_, '_>, vars: &[Var]) -> RunValue
    ensures { value_of result ≡ first_value_of (map (current state.now.frames) vars.now) }
{
    match vars.first() {
        Some(x) => state.frames.get(*x),
        None => RunValue::Unbound,
    }
}

/// Appends the values of variables.
pub fn push_values(
    state: &State<'_, '_>,
    vars: &[Var],
    values: &mut Vec<RunValue>,
) -> Result<(), Memory>
    ensures { OnOk result (map value_of values.new.items ≡ map value_of values.old.items ++ map (current state.now.frames) vars.now) }
{
    for x in vars {
        values.push(state.frames.get(*x))?;
    }
    Ok(())
}

/// Binds the index of a cell, and its components to the names.
pub fn bind_index(
    state: &mut State<'_, '_>,
    index: Var,
    names: &[Var],
    v: &[i32],
) -> Result<(), Memory>
    ensures bound { OnOk result (Binds state.old state.new
        (bind_values (bind_value (current state.old.frames) index (Small (vector Base.Int v.now))) names.now
        (map (λ z. Small (scalar Base.Int z)) v.now))) }
    ensures lender { lender_of state.new.heap ≡ lender_of state.old.heap }
{
    let Some(few) = Few::from_slice(v) else {
        return Err(Memory);
    };
    state.frames.bind(index, RunValue::Short(Base::Int, few))?;
    for k in 0..names.len() {
        state.frames.bind(names[k], component(v, k))?;
    }
    Ok(())
}

fn component(v: &[i32], k: usize) -> RunValue
    ensures { value_of result ≡ first_value_of (drop k (map (λ z. Small (scalar Base.Int z)) v.now)) }
{
    match v.get(k) {
        Some(n) => RunValue::Word(Base::Int, *n),
        None => RunValue::Unbound,
    }
}

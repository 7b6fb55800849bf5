//! Which variable alone has a reference to a buffer.

ghost use Rattle.std.specs.Prelude.{◌≡◌, true, IfSome};
ghost use Rattle.std.specs.List.{list_all};
ghost use Rattle.core_ir.specs.Binders.{is_in};
ghost use Rattle.phase_kernels.specs.over_checks.Holders.{is_apart as apart, is_elsewhere as elsewhere, HoldsAlone};
ghost use Rattle.run_values.specs.Scopes.{current};
ghost use Rattle.run_values.specs.Shown.{value_of};

use buffer_heap::BufferId;
use core_ir::Var;
use run_values::{Frames, RunValue};

/// The one of these variables that has a reference to a buffer, where no other of them has.
pub fn only_holder(variables: &[Var], id: BufferId, frames: &Frames<'_>) -> Option<Var>
    ensures { IfSome result (λ x. HoldsAlone id.born x variables.now (current frames.now)) }
{
    let holder = first_holder(variables, id, frames)?;
    if are_apart(variables, holder, id, frames) {
        Some(holder)
    } else {
        None
    }
}

// The first of these variables that has a reference to a buffer.
fn first_holder(variables: &[Var], id: BufferId, frames: &Frames<'_>) -> Option<Var>
    ensures { IfSome result (λ x. is_in x variables.now ≡ true) }
{
    for x in variables {
        if !is_elsewhere(frames.get(*x), id) {
            return Some(*x);
        }
    }
    None
}

// Whether each of these variables is the holder, or has no reference to the buffer.
fn are_apart(variables: &[Var], holder: Var, id: BufferId, frames: &Frames<'_>) -> bool
    ensures { result ≡ list_all (apart id.born holder (current frames.now)) variables.now }
{
    variables.iter().all(|x| is_apart(x, holder, id, frames))
}

fn is_apart(x: &Var, holder: Var, id: BufferId, frames: &Frames<'_>) -> bool
    ensures { result ≡ apart id.born holder (current frames.now) x.now }
{
    x.0 == holder.0 || is_elsewhere(frames.get(*x), id)
}

// Whether a value is no reference to a buffer.
fn is_elsewhere(value: RunValue, id: BufferId) -> bool
    ensures { result ≡ elsewhere id.born (value_of value) }
{
    match value {
        RunValue::Buffer(_, other, _) => other.born() != id.born(),
        _ => true,
    }
}

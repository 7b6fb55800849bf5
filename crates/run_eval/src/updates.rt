//! Replacements in place.

ghost use Rattle.std.specs.Prelude.{◌≡◌, ◌<◌, ◌≤◌, IfOk, IfSome, IsTrue, OnOk, [], ◌∷◌, drop, length, take};
ghost use Rattle.counted_code.specs.declared.tree.CodeStep.TheVariants.{Bind};
ghost use Rattle.counted_code.specs.Values.{Heap as MachineHeap};
ghost use Rattle.run_eval.specs.Updates.{IsSmall, OnlyTarget, ReleasesAt};
ghost use Rattle.run_loops.specs.declared.state.Context.{Context as ContextOf};
ghost use Rattle.run_loops.specs.Running.{IsAt, Reaches, SameOuter};
ghost use Rattle.run_store.specs.Stands.{lender_of};
ghost use Rattle.run_values.specs.Scopes.{current};
ghost use Rattle.run_values.specs.Shown.{value_of};

use core_ir::Var;
use counted_code::{CodeLet, CodeRight, CodeStep};
use run_loops::State;
use run_store::update_element;
use run_values::{Frames, RunValue};
use sac_base::Memory;

/// Makes the first steps at once, where they replace one element of an array and then release the array, to whose buffer no other reference leads: its
/// cells are then written where they lie. How many steps were made: where there is none, nothing has changed.
pub(crate) fn update_first(steps: &[CodeStep], state: &mut State<'_, '_>) -> Result<usize, Memory>
    ensures made { (context : ContextOf) (m : MachineHeap) → IsAt state.old m
        → IfOk result (λ n. 1 ≤ n → Reaches context (take n steps.now) state.old m [] state.new) }
    ensures some { IfOk result (λ n. n ≤ length steps.now) }
    ensures unchanged { IfOk result (λ n. n ≡ 0 → state.new ≡ state.old) }
    ensures scopes { OnOk result (SameOuter state.old.frames state.new.frames) }
    ensures lender { lender_of state.new.heap ≡ lender_of state.old.heap }
{
    let Some(binding) = first_binding(steps) else {
        return Ok(0);
    };
    let CodeRight::Replace(array, index, part) = &binding.right else {
        return Ok(0);
    };
    let Some(target) = other_target(binding, *array) else {
        return Ok(0);
    };
    let frames = &state.frames;
    let Some(releases) = release_place(&steps[1..], *array, target, frames) else {
        return Ok(0);
    };
    let (array, index, part) = (frames.get(*array), frames.get(*index), frames.get(*part));
    let Some(value) = update_element(&mut state.heap, &array, &index, &part)? else {
        return Ok(0);
    };
    state.frames.bind(target, value)?;
    Ok(releases + 2)
}

// The binding at the head of steps, if there is one.
fn first_binding(steps: &[CodeStep]) -> Option<&CodeLet>
    ensures { IfSome result (λ b. steps.now ≡ Bind b.now ∷ drop 1 steps.now) }
{
    match steps.first() {
        Some(CodeStep::Bind(binding)) => Some(binding),
        _ => None,
    }
}

// The only target of a binding, if it is another variable than this one.
fn other_target(binding: &CodeLet, x: Var) -> Option<Var>
    ensures { IfSome result (OnlyTarget binding.now x) }
{
    match binding.targets.as_slice() {
        [target] if target.0 != x.0 => Some(*target),
        _ => None,
    }
}

// The place of the step that releases an array, where the steps before it release what refers to no buffer, and not this target.
fn release_place(steps: &[CodeStep], array: Var, target: Var, frames: &Frames<'_>) -> Option<usize>
    ensures released { IfSome result (ReleasesAt (current frames.now) target array steps.now) }
    ensures within { IfSome result (λ k. k < length steps.now) }
{
    let Some(CodeStep::Release(x)) = steps.first() else {
        return None;
    };
    if x.0 == array.0 {
        return Some(0);
    }
    if x.0 == target.0 || !is_no_buffer(&frames.get(*x)) {
        return None;
    }
    let place = release_place(&steps[1..], array, target, frames)?;
    Some(place + 1)
}

// Whether a value is no reference to a buffer.
fn is_no_buffer(value: &RunValue) -> bool
    ensures { IsTrue result → IsSmall (value_of value.now) }
{
    match value {
        RunValue::Unbound => true,
        RunValue::Word(_, _) => true,
        RunValue::Short(_, _) => true,
        RunValue::Buffer(_, _, _) => false,
    }
}

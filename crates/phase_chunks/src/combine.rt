// Values that are combined.

ghost use Rattle.std.specs.Prelude.{◌≡◌, ◌∷◌, ◌≤◌, [], length, map, fold, Some};
ghost use Rattle.sac_base.specs.Verdict.{fold_op};
ghost use Rattle.wl_core.specs.Machine.{combine, both};
ghost use Rattle.phase_team.specs.Segments.{value_if};
ghost use Rattle.phase_chunks.specs.Gathering.{combined_on};

use sac_base::{Cell, Op, apply2};

// Combines each element with the one of the value.
fn combine_into(op: Op, into: &mut [Cell], value: &[Cell])
    requires { length value.now ≡ length into.old }
    ensures { into.new ≡ combine op into.old value.now }
{
    for i in 0..into.len() {
        into[i] = apply2(op, into[i], value[i]).unwrap_or(0);
    }
}

/// Combines a value that may be missing with another, which may be missing too, and answers whether there is one then.
pub fn combine_held(op: Op, into: &mut [Cell], held: bool, value: &[Cell], more: bool) -> bool
    requires { length value.now ≡ length into.old }
    ensures { value_if result into.new ≡ both (combine op) (value_if held into.old) (value_if more value.now) }
{
    if !more {
        return held;
    }
    if held {
        combine_into(op, into, value);
    } else {
        into.copy_from_slice(value);
    }
    true
}

// The loop of every operator: it is inlined where the operator is known, so that each operator has a loop of its own.
#[inline(always)]
fn fold_by(op: Op, first: Cell, numbers: &[Cell]) -> Cell
    ensures { result ≡ fold (fold_op op) first numbers.now }
{
    let mut value = first;
    for i in 0..numbers.len() {
        value = apply2(op, value, numbers[i]).unwrap_or(0);
    }
    value
}

// Combines a number with others, one after another.
fn fold_numbers(op: Op, first: Cell, numbers: &[Cell]) -> Cell
    ensures { result ≡ fold (fold_op op) first numbers.now }
{
    match op {
        Op::Add => fold_by(Op::Add, first, numbers),
        Op::Mul => fold_by(Op::Mul, first, numbers),
        Op::Min => fold_by(Op::Min, first, numbers),
        Op::Max => fold_by(Op::Max, first, numbers),
        Op::And => fold_by(Op::And, first, numbers),
        Op::Or => fold_by(Op::Or, first, numbers),
        _ => fold_by(op, first, numbers),
    }
}

/// Combines a value of one element, which may be missing, with numbers one after another.
pub(crate) fn combine_numbers(op: Op, into: &mut [Cell], held: bool, numbers: &[Cell])
    requires one { length into.old ≡ 1 }
    requires some { 1 ≤ length numbers.now }
    ensures { Some into.new ≡ combined_on (combine op) (value_if held into.old) (map (λ n. n ∷ []) numbers.now) }
{
    if held {
        into[0] = fold_numbers(op, into[0], numbers);
    } else {
        into[0] = fold_numbers(op, numbers[0], &numbers[1..]);
    }
}

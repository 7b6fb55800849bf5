//! What the cells of a fold come to.

ghost use Rattle.std.specs.Prelude.{◌≡◌, ℕ, None, Some, true, option_map, IfOk, IfSome, OnOk};
ghost use Rattle.counted_code.specs.Loops.{claim as claimed, count_phase, settled, release_rest};
ghost use Rattle.counted_code.specs.Values.{Heap as MachineHeap, Small, is_small as is_small_shape, read};
ghost use Rattle.run_loops.specs.Loops.{IsBegun, array_of, fold_target};
ghost use Rattle.run_loops.specs.Running.{IsAt, IsValue, Told};
ghost use Rattle.run_store.specs.Stands.{Stands, lender_of};
ghost use Rattle.run_store.specs.Targets.{target_of};
ghost use Rattle.run_values.specs.Shown.{value_of};
ghost use Rattle.sac_base.specs.Arrays.{scalar, size};
ghost use Rattle.sac_base.specs.WithLoops.{combined};

use crate::cells::{count, finish};
use crate::state::{Context, State};
use array_with_loops::combine;
use run_store::{Store, Target, claim, is_small, read_array, release};
use run_values::{RunValue, small_value};
use sac_base::{Array, Base, Memory, Op, Shape, Stop, apply2, copy_array, result_base};
use std::alloc::Global;

/// What the cells of a fold have come to.
#[derive(Drop)]
pub enum Sum {
    Word(Base, i32),
    Whole(Array),
}

/// The neutral value.
pub fn start(neutral: &Array) -> Result<Sum, Memory>
    ensures { IfOk result (λ s. array_of s ≡ neutral.now) }
{
    match neutral.as_scalar() {
        Some(n) => Ok(Sum::Word(neutral.base(), n)),
        None => Ok(Sum::Whole(copy_array(neutral)?)),
    }
}

/// A place for the result of a fold, if it is not small. It is a phase of so many positions.
pub fn begin_fold(
    shape: &Shape,
    positions: usize,
    context: &Context<'_>,
    state: &mut State<'_, '_>,
) -> Result<Option<Target>, Memory>
    ensures begun { (m : MachineHeap) (n : ℕ) → n ≡ positions → IsAt state.old m
        → IfOk result (λ t. IsBegun (fold_target t) state.new (claimed (is_small_shape shape.now) None (size shape.now) (count_phase true n m))) }
    ensures frames { OnOk result (state.new.frames ≡ state.old.frames) }
    ensures lender { lender_of state.new.heap ≡ lender_of state.old.heap }
{
    count(context.alloc, positions, state, true)?;
    if is_small(shape) {
        return Ok(None);
    }
    let target = claim(context.alloc, &mut state.heap, shape)?;
    Ok(Some(target))
}

/// A cell more, which is released.
pub fn add_cell(
    alloc: Global,
    heap: &mut Store<'_>,
    op: Op,
    sum: Sum,
    value: Option<RunValue>,
) -> Result<Sum, Memory>
    ensures added { (m : MachineHeap) → Stands heap.old m
        → IfOk result (λ s. (array_of s ≡ combined op (array_of sum) (option_map (read m) (option_map value_of value)))
        × Stands heap.new (release_rest (option_map value_of value) m)) }
    ensures lender { lender_of heap.new ≡ lender_of heap.old }
{
    match value {
        Some(value) => {
            let sum = sum_with(alloc, heap, op, sum, value)?;
            release(heap, value)?;
            Ok(sum)
        }
        None => Ok(sum),
    }
}

fn sum_with(
    alloc: Global,
    heap: &Store<'_>,
    op: Op,
    sum: Sum,
    value: RunValue,
) -> Result<Sum, Memory>
    ensures { (m : MachineHeap) → Stands heap.now m → IfOk result (λ s. array_of s ≡ combined op (array_of sum) (Some (read m (value_of value)))) }
{
    match sum {
        Sum::Word(base, n) => match value.as_word()? {
            Some(m) => Ok(word_with(op, base, n, m)),
            None => Err(Memory),
        },
        Sum::Whole(array) => {
            let cell = read_array(alloc, heap, value)?;
            match combine(alloc, op, array, &Some(cell)) {
                Ok(whole) => Ok(Sum::Whole(whole)),
                Err(_) => Err(Memory),
            }
        }
    }
}

// The operator between scalars. A quotient by 0 leaves the first.
fn word_with(op: Op, base: Base, n: i32, m: i32) -> Sum
    ensures { (of : Base) → array_of result ≡ combined op (scalar base n) (Some (scalar of m)) }
{
    match apply2(op, n, m) {
        Ok(value) => Sum::Word(result_base(op), value),
        Err(_) => Sum::Word(base, n),
    }
}

/// The finished result.
pub fn finish_fold(
    sum: Sum,
    target: Option<Target>,
    state: &mut State<'_, '_>,
) -> Result<RunValue, Stop>
    ensures told { (m : MachineHeap) → IsAt state.old m → Told IsValue result state.new (settled (fold_target target) (array_of sum) m) }
    ensures frames { OnOk result (state.new.frames ≡ state.old.frames) }
    ensures lender { lender_of state.new.heap ≡ lender_of state.old.heap }
{
    match target {
        None => match small_result(sum) {
            Some(value) => Ok(value),
            None => Err(Stop::Memory),
        },
        Some(target) => finish_whole(sum, target, state),
    }
}

// The array as a value that holds it itself.
fn small_result(sum: Sum) -> Option<RunValue>
    ensures { IfSome result (λ v. value_of v ≡ Small (array_of sum)) }
{
    match sum {
        Sum::Word(base, n) => Some(RunValue::Word(base, n)),
        Sum::Whole(array) => small_value(array.base(), array.shape(), array.cells()),
    }
}

fn finish_whole(sum: Sum, target: Target, state: &mut State<'_, '_>) -> Result<RunValue, Stop>
    ensures told { (m : MachineHeap) → IsAt state.old m → Told IsValue result state.new (settled (target_of target) (array_of sum) m) }
    ensures frames { OnOk result (state.new.frames ≡ state.old.frames) }
    ensures lender { lender_of state.new.heap ≡ lender_of state.old.heap }
{
    match sum {
        Sum::Word(_, _) => Err(Stop::Memory),
        Sum::Whole(array) => {
            let mut target = target;
            target.cells.clear();
            target.cells.extend_from_slice(array.cells())?;
            let shape = array.shape().copy();
            finish(target, array.base(), &shape, state)
        }
    }
}

//! Operators of whole buffers, whose cells are read where they lie.

ghost use Rattle.std.specs.Prelude.{◌≡◌, ◌<◌, ◌≤◌, ℕ, ℤ, IfOk, IfSome, IsTrue, Ok, length, map, replicate, unsigned_abs};
ghost use Rattle.counted_code.specs.Values.{Heap as MachineHeap, read};
ghost use Rattle.lane_ops.specs.Lanes.{lane};
ghost use Rattle.run_store.specs.Stands.{Stands};
ghost use Rattle.run_values.specs.Numbers.{numbers};
ghost use Rattle.run_values.specs.Shown.{value_of};
ghost use Rattle.sac_base.specs.declared.base.Base.{Base as BaseOf};
ghost use Rattle.sac_base.specs.Arrays.{size};
ghost use Rattle.sac_base.specs.Operators.{apply_two, binary as binary_arrays, combined, result_base as result_of};
ghost use Rattle.sac_base.specs.Verdict.{fold_op};

use crate::mirror::mirrored;
use lane_ops::has_no_zero;
use run_store::{Store, array_of, buffer_cells, same_sizes};
use run_values::{Few, RunValue};
use sac_base::{Array, Cell, Memory, Op, result_base};
use shared_strips::Strips;
use std::alloc::Global;

// An operator of a buffer and another of its shape, or a number, where no element is divided by zero. None for other operands.
// The result's cells are the heap's spare ones, if there are as many.
fn array_together<S: Strips>(
    alloc: Global,
    heap: &mut Store<'_>,
    op: Op,
    a: RunValue,
    b: RunValue,
    strips: &S,
) -> Result<Option<Array>, Memory>
    ensures array { (m : MachineHeap) → Stands heap.old m
        → IfOk result (λ o. IfSome o (λ array. binary_arrays op (read m (value_of a)) (read m (value_of b)) ≡ Ok array)) }
    ensures heap { heap.new ≡ heap.old }
{
    let RunValue::Buffer(_, id, extents) = a else {
        return Ok(None);
    };
    if extents.len() == 0 {
        return Ok(None);
    }
    let len = buffer_cells(heap, id)?.len();
    let spare = heap.own.take_spare(len)?;
    let left = buffer_cells(heap, id)?;
    let Some(cells) = cells_together(heap, op, &extents, left, b, strips, spare)? else {
        return Ok(None);
    };
    Ok(Some(array_of(alloc, result_base(op), &extents, cells)?))
}

/// An operator of a buffer and another of its shape, or of a buffer and a number, in either order where the operator's operands may change places.
/// None where an element is divided by zero, and for other operands.
pub(crate) fn array_either_way<S: Strips>(
    alloc: Global,
    heap: &mut Store<'_>,
    op: Op,
    a: RunValue,
    b: RunValue,
    strips: &S,
) -> Result<Option<Array>, Memory>
    ensures array { (m : MachineHeap) → Stands heap.old m
        → IfOk result (λ o. IfSome o (λ array. binary_arrays op (read m (value_of a)) (read m (value_of b)) ≡ Ok array)) }
    ensures heap { heap.new ≡ heap.old }
{
    match (a, mirrored(op)) {
        (RunValue::Word(_, _), Some(other)) => array_together(alloc, heap, other, b, a, strips),
        _ => array_together(alloc, heap, op, a, b, strips),
    }
}

// The cells of the result, written over these, if there are as many as of the first operand.
fn cells_together<S: Strips>(
    heap: &Store<'_>,
    op: Op,
    extents: &Few,
    left: &[Cell],
    b: RunValue,
    strips: &S,
    over: Vec<Cell>,
) -> Result<Option<Vec<Cell>>, Memory>
    requires { 1 ≤ length (numbers extents.now) }
    ensures array { (m : MachineHeap) (s : BaseOf) → Stands heap.now m → size (map unsigned_abs (numbers extents.now)) ≡ length left.now
        → IfOk result (λ o. IfSome o (λ cells.
        binary_arrays op (record { base = s; shape = map unsigned_abs (numbers extents.now); cells = left.now }) (read m (value_of b))
        ≡ Ok (record { base = result_of op; shape = map unsigned_abs (numbers extents.now); cells = cells.items }))) }
    ensures length { IfOk result (λ o. IfSome o (λ cells. length cells.items ≡ length left.now)) }
{
    match b {
        RunValue::Buffer(_, id, same) => {
            if !same_sizes(extents.as_slice(), same.as_slice()) {
                return Ok(None);
            }
            Ok(each_pair(op, left, buffer_cells(heap, id)?, strips, over))
        }
        RunValue::Word(_, number) => Ok(each_with(op, left, number, strips, over)),
        _ => Ok(None),
    }
}

// The operator at each pair of cells, written over these, if there are as many of all and none is divided by zero.
fn each_pair<S: Strips>(
    op: Op,
    left: &[Cell],
    right: &[Cell],
    strips: &S,
    over: Vec<Cell>,
) -> Option<Vec<Cell>>
    ensures cells { IfSome result (λ cells. combined op left.now right.now ≡ Ok cells.items) }
    ensures length { IfSome result (λ cells. length cells.items ≡ length left.now) }
{
    let mut cells = over;
    if left.len() != cells.len() || right.len() != cells.len() || !divides_all(op, right) {
        return None;
    }
    write_pairs(op, left, right, strips, &mut cells);
    Some(cells)
}

// The operator at each cell and a number, written over these, if there are as many and none is divided by zero.
fn each_with<S: Strips>(
    op: Op,
    left: &[Cell],
    number: Cell,
    strips: &S,
    over: Vec<Cell>,
) -> Option<Vec<Cell>>
    ensures cells { IfSome result (λ cells. combined op left.now (replicate (length left.now) number) ≡ Ok cells.items) }
    ensures length { IfSome result (λ cells. length cells.items ≡ length left.now) }
{
    let mut cells = over;
    if left.len() != cells.len() || !divides(op, number) {
        return None;
    }
    write_with(op, left, number, strips, &mut cells);
    Some(cells)
}

fn write_pairs<S: Strips>(op: Op, left: &[Cell], right: &[Cell], strips: &S, cells: &mut [Cell])
    requires left { length left.now ≡ length cells.old }
    requires right { length right.now ≡ length cells.old }
    requires values { (k : ℕ) → k < length right.now → (x : ℤ) → apply_two op x (lane right.now k) ≡ Ok (fold_op op x (lane right.now k)) }
    ensures { combined op left.now right.now ≡ Ok cells.new }
{
    strips.both(op, left, right, cells);
}

fn write_with<S: Strips>(op: Op, left: &[Cell], number: Cell, strips: &S, cells: &mut [Cell])
    requires left { length left.now ≡ length cells.old }
    requires values { (x : ℤ) → apply_two op x number ≡ Ok (fold_op op x number) }
    ensures { combined op left.now (replicate (length left.now) number) ≡ Ok cells.new }
{
    strips.right(op, left, number, cells);
}

// Whether the operator has a value wherever one of these is its second operand.
fn divides_all(op: Op, right: &[Cell]) -> bool
    ensures { IsTrue result → (k : ℕ) → k < length right.now → (x : ℤ) → apply_two op x (lane right.now k) ≡ Ok (fold_op op x (lane right.now k)) }
{
    match op {
        Op::Div | Op::Rem => has_no_zero(right),
        _ => true,
    }
}

// The same of one number.
fn divides(op: Op, number: Cell) -> bool
    ensures { IsTrue result → (x : ℤ) → apply_two op x number ≡ Ok (fold_op op x number) }
{
    match op {
        Op::Div | Op::Rem => number != 0,
        _ => true,
    }
}

//! Arrays as values, and values as arrays.

ghost use Rattle.std.specs.Prelude.{◌≡◌, ◌<◌, length, map, pos, unsigned_abs, IfNone, IfOk, IfSome, OnOk, Ok};
ghost use Rattle.counted_code.specs.Values.{Heap as MachineHeap, read, is_small, place_value, place_as, cells_of, count_of, release as released, release_count};
ghost use Rattle.std.specs.Prelude.{false};
ghost use Rattle.sac_base.specs.Arrays.{size, MOST};
ghost use Rattle.run_store.specs.Stands.{Stands, Placed, TellsPlaced, lender_of};
ghost use Rattle.sac_base.specs.Arrays.{ArrayValue};
ghost use Rattle.sac_base.specs.Outcomes.{Ends};
ghost use Rattle.array_ops.specs.Tells.{Tells};
ghost use Rattle.run_values.specs.Numbers.{numbers};
ghost use Rattle.run_values.specs.Shown.{value_of};

use crate::access::{buffer_cells, release};
use crate::store::Store;
use buffer_heap::BufferId;
use run_values::{Few, RunValue, small_value};
use sac_base::{Array, Base, Cell, Memory, Shape, Stop, elements};
use std::alloc::Global;

/// The array that a value is.
pub fn read_array(alloc: Global, heap: &Store<'_>, value: RunValue) -> Result<Array, Memory>
    ensures { (m : MachineHeap) → Stands heap.now m → IfOk result (λ a. a ≡ read m (value_of value)) }
{
    match value {
        RunValue::Unbound => Array::scalar(alloc, Base::Int, 0),
        RunValue::Word(base, n) => Array::scalar(alloc, base, n),
        RunValue::Short(base, few) => {
            let cells = Vec::from_slice(alloc, few.as_slice())?;
            Ok(Array::vector(alloc, base, cells))
        }
        RunValue::Buffer(base, id, extents) => {
            let cells = Vec::from_slice(alloc, buffer_cells(heap, id)?)?;
            array_of(alloc, base, &extents, cells)
        }
    }
}

/// The array that a value is, whose reference is given up. Its cells are moved out of the own heap where no other reference leads to its buffer,
/// and copied else.
pub fn take_array(alloc: Global, heap: &mut Store<'_>, value: RunValue) -> Result<Array, Memory>
    ensures array { (m : MachineHeap) → Stands heap.old m → IfOk result (λ a. a ≡ read m (value_of value)) }
    ensures released { (m : MachineHeap) → Stands heap.old m → OnOk result (Stands heap.new (released (value_of value) m)) }
    ensures lender { lender_of heap.new ≡ lender_of heap.old }
{
    if let RunValue::Buffer(base, id, extents) = value {
        if let Some(cells) = take_cells(heap, id) {
            return array_of(alloc, base, &extents, cells);
        }
    }
    let array = read_array(alloc, heap, value)?;
    release(heap, value)?;
    Ok(array)
}

// The cells of a buffer of the own heap to which one reference leads, which is given back.
pub(crate) fn take_cells(heap: &mut Store<'_>, id: BufferId) -> Option<Vec<Cell>>
    ensures cells { (m : MachineHeap) → Stands heap.old m → IfSome result (λ cells. cells.items ≡ cells_of m id.born) }
    ensures released { (m : MachineHeap) → Stands heap.old m
        → IfSome result (λ _. Stands heap.new (release_count id.born (count_of m id.born) m)) }
    ensures within { (m : MachineHeap) → Stands heap.old m → IfSome result (λ _. id.born < length m.buffers) }
    ensures unchanged { IfNone result (heap.new ≡ heap.old) }
    ensures lender { lender_of heap.new ≡ lender_of heap.old }
{
    if !heap.own.is_held(id) || !heap.own.is_sole(id) {
        return None;
    }
    Some(heap.own.give_out(id))
}

/// The array of these extents and cells. Others than an array has, which do not occur in code, count as want of memory.
pub fn array_of(alloc: Global, base: Base, extents: &Few, cells: Vec<Cell>) -> Result<Array, Memory>
    ensures array { IfOk result (λ a. a ≡ record { base = base; shape = map unsigned_abs (numbers extents.now); cells = cells.items }) }
    ensures full { IfOk result (λ a. size a.shape ≡ length a.cells) }
{
    let Some(shape) = Shape::from_extents(alloc, extents.as_slice()) else {
        return Err(Memory);
    };
    if elements(&shape) != Some(cells.len() as u64) {
        return Err(Memory);
    }
    Ok(Array::new(base, shape, cells))
}

/// A value of its own for an array of these cells: small, or in a new buffer.
pub fn place_cells(
    heap: &mut Store<'_>,
    base: Base,
    shape: &Shape,
    cells: Vec<Cell>,
) -> Result<RunValue, Memory>
    requires { length cells.items ≡ size shape.now }
    ensures placed { (m : MachineHeap) → Stands heap.old m
        → IfOk result (λ v. Placed v heap.new (place_value (record { base = base; shape = shape.now; cells = cells.items }) m)) }
    ensures lender { lender_of heap.new ≡ lender_of heap.old }
{
    match small_value(base, shape, &cells) {
        Some(value) => Ok(value),
        None => put_cells(heap, base, shape, cells),
    }
}

// The extents of a shape, of which there are at most 8.
pub(crate) fn extents_of(shape: &Shape) -> Few
    ensures { numbers result ≡ map pos shape.now }
{
    match Few::from_slice(shape.extents()) {
        Some(extents) => extents,
        None => unreachable!(),
    }
}

// A value in a new buffer.
#[inline(never)]
fn put_cells(
    heap: &mut Store<'_>,
    base: Base,
    shape: &Shape,
    cells: Vec<Cell>,
) -> Result<RunValue, Memory>
    ensures placed { (m : MachineHeap) → Stands heap.old m
        → IfOk result (λ v. Placed v heap.new (place_as false (record { base = base; shape = shape.now; cells = cells.items }) m)) }
    ensures lender { lender_of heap.new ≡ lender_of heap.old }
{
    let extents = extents_of(shape);
    let id = heap.own.put(cells)?;
    Ok(RunValue::Buffer(base, id, extents))
}

/// A value of its own for an array.
pub fn place_array(alloc: Global, heap: &mut Store<'_>, array: &Array) -> Result<RunValue, Memory>
    ensures placed { (m : MachineHeap) → Stands heap.old m → IfOk result (λ v. Placed v heap.new (place_value array.now m)) }
    ensures lender { lender_of heap.new ≡ lender_of heap.old }
{
    match small_value(array.base(), array.shape(), array.cells()) {
        Some(value) => Ok(value),
        None => put_copy(alloc, heap, array),
    }
}

// A copy in a new buffer.
fn put_copy(alloc: Global, heap: &mut Store<'_>, array: &Array) -> Result<RunValue, Memory>
    ensures placed { (m : MachineHeap) → Stands heap.old m → IfOk result (λ v. Placed v heap.new (place_as false array.now m)) }
    ensures lender { lender_of heap.new ≡ lender_of heap.old }
{
    let cells = Vec::from_slice(alloc, array.cells())?;
    put_cells(heap, array.base(), array.shape(), cells)
}

/// A value of its own for an array that is given up.
pub fn place_own(heap: &mut Store<'_>, array: Array) -> Result<RunValue, Memory>
    ensures placed { (m : MachineHeap) → Stands heap.old m → IfOk result (λ v. Placed v heap.new (place_value array m)) }
    ensures lender { lender_of heap.new ≡ lender_of heap.old }
{
    let _ = array.cells();
    let base = array.base();
    let shape = array.shape().copy();
    place_cells(heap, base, &shape, array.into_cells())
}

/// A value of its own for an answer.
#[inline(never)]
pub fn place_result(heap: &mut Store<'_>, answer: Result<Array, Stop>) -> Result<RunValue, Stop>
    ensures told { (m : MachineHeap) → Stands heap.old m → (meant : Ends ArrayValue) → Tells answer meant → TellsPlaced result heap.new m meant }
    ensures lender { lender_of heap.new ≡ lender_of heap.old }
{
    match answer {
        Ok(array) => place_or_stop(heap, array),
        Err(stop) => Err(stop),
    }
}

fn place_or_stop(heap: &mut Store<'_>, array: Array) -> Result<RunValue, Stop>
    ensures told { (m : MachineHeap) → Stands heap.old m → TellsPlaced result heap.new m (Ok array) }
    ensures lender { lender_of heap.new ≡ lender_of heap.old }
{
    match place_own(heap, array) {
        Ok(value) => Ok(value),
        Err(Memory) => Err(Stop::Memory),
    }
}

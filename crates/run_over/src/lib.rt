//! Results that are written over the buffer of an array to which there is no other reference.
#![tactic(auto)]

ghost use Rattle.std.specs.Prelude.{◌≡◌, ◌+◌, ◌==◌, ◌∷◌, [], IsTrue, IfOk, OnOk};
ghost use Rattle.buffer_heap.specs.Heaps.{IsLive};
ghost use Rattle.counted_code.specs.Loops.{written_at};
ghost use Rattle.counted_code.specs.Values.{Heap as MachineHeap, cells_of, count_of, with_cells};
ghost use Rattle.run_over.specs.Soles.{IsSoleOf, is_only};
ghost use Rattle.run_store.specs.Stands.{Stands, lender_of};
ghost use Rattle.run_values.specs.Shown.{value_of};

use buffer_heap::BufferId;
use run_store::Store;
use run_values::RunValue;
use sac_base::{Cell, Memory};

/// Whether a value is the only reference to its buffer. One that has no buffer is none.
///
/// # Errors
///
/// `Memory`: the buffer is none of the thread's own that is in. In well-counted code that is never so on one thread.
pub fn is_sole(heap: &Store<'_>, value: &RunValue) -> Result<bool, Memory>
    ensures { (m : MachineHeap) → Stands heap.now m → IfOk result (λ sole. sole ≡ is_only m (value_of value.now)) }
{
    match value {
        RunValue::Buffer(_, id, _) => is_sole_buffer(heap, *id),
        _ => Ok(false),
    }
}

fn is_sole_buffer(heap: &Store<'_>, id: BufferId) -> Result<bool, Memory>
    ensures { (m : MachineHeap) → Stands heap.now m → IfOk result (λ sole. sole ≡ (count_of m id.born == 1)) }
{
    if heap.own.is_held(id) {
        Ok(heap.own.is_sole(id))
    } else {
        Err(Memory)
    }
}

// Whether the buffer is one of the thread's own that is in and has one reference.
fn may_be_over(heap: &Store<'_>, id: BufferId) -> bool
    ensures { IsTrue result → IsLive heap.now.own id.place (IsSoleOf id.born) }
{
    if heap.own.is_held(id) {
        heap.own.is_sole(id)
    } else {
        false
    }
}

/// Begins to write over a buffer that has one reference, which counts as reused. It stays in, so that what stands there can
/// still be read.
///
/// # Errors
///
/// `Memory`: the buffer is none of the thread's own that is in and has one reference.
pub fn claim_over(heap: &mut Store<'_>, id: BufferId) -> Result<(), Memory>
    ensures claimed { (m : MachineHeap) → Stands heap.old m → OnOk result (Stands heap.new (record m { reused = m.reused + 1 })) }
    ensures lender { lender_of heap.new ≡ lender_of heap.old }
{
    if !may_be_over(heap, id) {
        return Err(Memory);
    }
    let cells = heap.own.reuse(id);
    heap.own.settle(id, cells);
    Ok(())
}

/// Writes an element at a place of a buffer that has one reference.
///
/// # Errors
///
/// `Memory`: as of `claim_over`, or the buffer has no such place.
pub fn write_over(
    heap: &mut Store<'_>,
    id: BufferId,
    place: usize,
    element: Cell,
) -> Result<(), Memory>
    ensures written { (m : MachineHeap) → Stands heap.old m
        → OnOk result (Stands heap.new (with_cells m id.born (written_at place (element ∷ []) (cells_of m id.born)))) }
    ensures lender { lender_of heap.new ≡ lender_of heap.old }
{
    if !may_be_over(heap, id) {
        return Err(Memory);
    }
    if place >= heap.own.cells(id).len() {
        return Err(Memory);
    }
    let mut cells = heap.own.lift(id);
    cells[place] = element;
    heap.own.settle(id, cells);
    Ok(())
}

//! References to buffers.
//!
//! A reference to a buffer that is not live counts as want of memory, and so does one too many. In well-counted code there is none.

ghost use Rattle.std.specs.Prelude.{◌≡◌, ◌+◌, IsTrue, IsSome, IfOk, OnOk};
ghost use Rattle.counted_code.specs.Values.{Heap as MachineHeap, cells_of, count_of, with_count, release_count, keep as kept, release as released};
ghost use Rattle.run_store.specs.Stands.{lender_of};
ghost use Rattle.run_store.specs.Stands.{Stands};
ghost use Rattle.run_values.specs.Shown.{value_of};

use crate::lent::Lent;
use crate::store::Store;
use buffer_heap::{BufferId, Heap};
use run_values::RunValue;
use sac_base::{Cell, Memory};

/// The cells of a buffer.
pub fn buffer_cells<'s>(heap: &'s Store<'_>, id: BufferId) -> Result<&'s [Cell], Memory>
    ensures { (m : MachineHeap) → Stands heap.now m → IfOk result (λ cells. cells.now ≡ cells_of m id.born) }
{
    if let Some(lent) = &heap.lent {
        if lent.has(id) {
            return Ok(lent.cells(id));
        }
    }
    if heap.own.is_held(id) {
        Ok(heap.own.cells(id))
    } else {
        Err(Memory)
    }
}

/// One reference more.
pub fn keep(heap: &mut Store<'_>, value: RunValue) -> Result<(), Memory>
    ensures kept { (m : MachineHeap) → Stands heap.old m → OnOk result (Stands heap.new (kept (value_of value) m)) }
    ensures lender { lender_of heap.new ≡ lender_of heap.old }
{
    match value {
        RunValue::Buffer(_, id, _) => keep_buffer(heap, id),
        _ => Ok(()),
    }
}

#[inline(never)]
fn keep_buffer(heap: &mut Store<'_>, id: BufferId) -> Result<(), Memory>
    ensures kept { (m : MachineHeap) → Stands heap.old m → OnOk result (Stands heap.new (with_count m id.born (count_of m id.born + 1))) }
    ensures lender { lender_of heap.new ≡ lender_of heap.old }
{
    if is_lent(heap, id) {
        keep_lent(heap, id)
    } else {
        keep_own(heap, id)
    }
}

// Whether the buffer is one of those that are lent.
fn is_lent(heap: &Store<'_>, id: BufferId) -> bool
    ensures { IsTrue result → IsSome heap.now.lent }
{
    match &heap.lent {
        Some(lent) => lent.has(id),
        None => false,
    }
}

fn keep_lent(heap: &mut Store<'_>, id: BufferId) -> Result<(), Memory>
    requires { IsSome heap.old.lent }
    ensures kept { (m : MachineHeap) → Stands heap.old m → OnOk result (Stands heap.new (with_count m id.born (count_of m id.born + 1))) }
    ensures lender { lender_of heap.new ≡ lender_of heap.old }
{
    match &mut heap.lent {
        Some(lent) => lent.keep(id),
        None => unreachable!(),
    }
}

fn keep_own(heap: &mut Store<'_>, id: BufferId) -> Result<(), Memory>
    ensures kept { (m : MachineHeap) → Stands heap.old m → OnOk result (Stands heap.new (with_count m id.born (count_of m id.born + 1))) }
    ensures lender { lender_of heap.new ≡ lender_of heap.old }
{
    if !heap.own.has_room(id) {
        return Err(Memory);
    }
    heap.own.keep(id);
    Ok(())
}

/// One reference less.
pub fn release(heap: &mut Store<'_>, value: RunValue) -> Result<(), Memory>
    ensures released { (m : MachineHeap) → Stands heap.old m → OnOk result (Stands heap.new (released (value_of value) m)) }
    ensures lender { lender_of heap.new ≡ lender_of heap.old }
{
    match value {
        RunValue::Buffer(_, id, _) => release_buffer(heap, id),
        _ => Ok(()),
    }
}

#[inline(never)]
fn release_buffer(heap: &mut Store<'_>, id: BufferId) -> Result<(), Memory>
    ensures released { (m : MachineHeap) → Stands heap.old m → OnOk result (Stands heap.new (release_count id.born (count_of m id.born) m)) }
    ensures lender { lender_of heap.new ≡ lender_of heap.old }
{
    if is_lent(heap, id) {
        release_lent(heap, id)
    } else {
        release_own(heap, id)
    }
}

fn release_lent(heap: &mut Store<'_>, id: BufferId) -> Result<(), Memory>
    requires { IsSome heap.old.lent }
    ensures released { (m : MachineHeap) → Stands heap.old m → OnOk result (Stands heap.new (release_count id.born (count_of m id.born) m)) }
    ensures lender { lender_of heap.new ≡ lender_of heap.old }
{
    match &mut heap.lent {
        Some(lent) => lent.release(id),
        None => unreachable!(),
    }
}

fn release_own(heap: &mut Store<'_>, id: BufferId) -> Result<(), Memory>
    ensures released { (m : MachineHeap) → Stands heap.old m → OnOk result (Stands heap.new (release_count id.born (count_of m id.born) m)) }
    ensures lender { lender_of heap.new ≡ lender_of heap.old }
{
    if !heap.own.is_held(id) {
        return Err(Memory);
    }
    heap.own.release(id);
    Ok(())
}

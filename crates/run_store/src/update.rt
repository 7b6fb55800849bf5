//! Arrays whose elements are changed in place.

ghost use Rattle.std.specs.Prelude.{◌≡◌, [], length, map, unsigned_abs, IfNone, IfOk, IfSome, Some};
ghost use Rattle.counted_code.specs.Values.{Heap as MachineHeap, read, is_small};
ghost use Rattle.sac_base.specs.Arrays.{ArrayValue};
ghost use Rattle.sac_base.specs.Parts.{numbers_of, part_at_index};
ghost use Rattle.run_store.specs.Stands.{Stands, lender_of};
ghost use Rattle.run_store.specs.Updates.{IsUpdated, renewed};
ghost use Rattle.run_values.specs.Numbers.{numbers};
ghost use Rattle.run_values.specs.Shown.{value_of};

use crate::arrays::take_cells;
use crate::select::{cell_place, index_numbers};
use crate::store::Store;
use crate::target::write_word;
use buffer_heap::BufferId;
use run_values::{Few, RunValue};
use sac_base::{Cell, Memory, same_base};

/// The array with one element changed, for an array whose reference is given up: its cells are moved into the new buffer. `None`: the array lies in no own
/// buffer to which one reference leads, the index is none of one element, or the part is no scalar of the array's base; then nothing has changed.
pub fn update_element(
    heap: &mut Store<'_>,
    array: &RunValue,
    index: &RunValue,
    part: &RunValue,
) -> Result<Option<RunValue>, Memory>
    ensures told { (m : MachineHeap) → Stands heap.old m → IfOk result (λ o. IfSome o (λ v. IsUpdated array.now index.now part.now v heap.new m)) }
    ensures unchanged { IfOk result (λ o. IfNone o (heap.new ≡ heap.old)) }
    ensures lender { lender_of heap.new ≡ lender_of heap.old }
{
    let RunValue::Buffer(base, id, extents) = array else {
        return Ok(None);
    };
    let RunValue::Word(part_base, n) = part else {
        return Ok(None);
    };
    if !same_base(*part_base, *base) || is_held_inside(extents) {
        return Ok(None);
    }
    let Some(place) = element_place(extents, index) else {
        return Ok(None);
    };
    match renew_buffer(heap, *id, place, *n)? {
        Some(new) => Ok(Some(RunValue::Buffer(*base, new, *extents))),
        None => Ok(None),
    }
}

// Whether a value holds an array of these extents itself.
fn is_held_inside(extents: &Few) -> bool
    ensures { result ≡ is_small (map unsigned_abs (numbers extents.now)) }
{
    match extents.as_slice() {
        [] => true,
        [n] => n.unsigned_abs() <= 8,
        _ => false,
    }
}

// The place of the element at an index, if there is one that the value of the index tells.
fn element_place(extents: &Few, index: &RunValue) -> Option<usize>
    ensures { (m : MachineHeap) → (a : ArrayValue) → a.shape ≡ map unsigned_abs (numbers extents.now)
        → IfSome result (λ k. part_at_index a (numbers_of (read m (value_of index.now))) ≡ Some (record { start = k; shape = [] })) }
{
    let few = index_numbers(index)?;
    cell_place(extents.as_slice(), few.as_slice())
}

// A new buffer with the cells of an own one to which one reference leads, but this number at a place. The old one is given back.
fn renew_buffer(
    heap: &mut Store<'_>,
    id: BufferId,
    place: usize,
    n: Cell,
) -> Result<Option<BufferId>, Memory>
    ensures number { (m : MachineHeap) → Stands heap.old m → IfOk result (λ o. IfSome o (λ new. new.born ≡ length m.buffers)) }
    ensures stands { (m : MachineHeap) → Stands heap.old m → IfOk result (λ o. IfSome o (λ _. Stands heap.new (renewed id.born place n m))) }
    ensures unchanged { IfOk result (λ o. IfNone o (heap.new ≡ heap.old)) }
    ensures lender { lender_of heap.new ≡ lender_of heap.old }
{
    let Some(mut cells) = take_cells(heap, id) else {
        return Ok(None);
    };
    write_word(&mut cells, place, n)?;
    let new = heap.own.put(cells)?;
    Ok(Some(new))
}

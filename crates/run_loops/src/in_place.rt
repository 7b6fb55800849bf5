//! Results that are written over the array of a marked variable.

ghost use Rattle.counted_code.specs.Loops.{Old, count_phase, release_rest, write_cell};
ghost use Rattle.counted_code.specs.Values.{Heap as MachineHeap, is_small as is_small_shape, read};
ghost use Rattle.run_loops.specs.Running.{IsAt};
ghost use Rattle.run_over.specs.Soles.{is_only};
ghost use Rattle.run_store.specs.Stands.{Stands, lender_of};
ghost use Rattle.run_values.specs.Numbers.{numbers};
ghost use Rattle.run_values.specs.Shown.{value_of};
ghost use Rattle.std.specs.Prelude.{◌≡◌, ◌+◌, ◌&&◌, ℕ, true, map, not, option_map, unsigned_abs, IfOk, OnOk};

use crate::cells::count;
use crate::state::{Context, State};
use buffer_heap::BufferId;
use run_over::{claim_over, is_sole, write_over};
use run_store::{Store, is_small, same_sizes};
use run_values::{Few, RunValue};
use sac_base::{Memory, Shape};

/// Whether a result of this shape is written over the buffer of an array.
pub fn is_written_over(heap: &Store<'_>, shape: &Shape, array: &RunValue) -> Result<bool, Memory>
    ensures { (m : MachineHeap) → Stands heap.now m
        → IfOk result (λ over. over ≡ (not (is_small_shape shape.now) && is_only m (value_of array.now))) }
{
    if is_small(shape) {
        return Ok(false);
    }
    is_sole(heap, array)
}

/// Whether these are the extents of the shape.
pub fn has_shape(extents: &Few, shape: &Shape) -> bool
    ensures { result ≡ true → map unsigned_abs (numbers extents.now) ≡ shape.now }
{
    same_sizes(extents.as_slice(), shape.extents())
}

/// Takes over a buffer to which there is one reference, for a phase of so many positions.
pub fn begin_in_place(
    positions: usize,
    buffer: BufferId,
    context: &Context<'_>,
    state: &mut State<'_, '_>,
) -> Result<(), Memory>
    ensures begun { (m : MachineHeap) (n : ℕ) → n ≡ positions → IsAt state.old m
        → OnOk result (IsAt state.new (record (count_phase true n m) { reused = m.reused + 1 })) }
    ensures frames { OnOk result (state.new.frames ≡ state.old.frames) }
    ensures lender { lender_of state.new.heap ≡ lender_of state.old.heap }
{
    count(context.alloc, positions, state, true)?;
    claim_over(&mut state.heap, buffer)
}

/// Writes a scalar cell at its place into a buffer that was taken over. A cell that is none, and an index without a cell, which
/// loops of well-marked code do not have, count as want of memory.
pub fn put_in_place(
    heap: &mut Store<'_>,
    value: Option<RunValue>,
    buffer: BufferId,
    place: usize,
) -> Result<(), Memory>
    ensures put { (m : MachineHeap) → Stands heap.old m
        → OnOk result (Stands heap.new (write_cell (Old buffer.born) place (option_map (read m) (option_map value_of value))
        (release_rest (option_map value_of value) m))) }
    ensures lender { lender_of heap.new ≡ lender_of heap.old }
{
    let Some(cell) = value else {
        return Err(Memory);
    };
    let RunValue::Word(_, element) = cell else {
        return Err(Memory);
    };
    write_over(heap, buffer, place, element)
}

//! Arrays that fill a buffer.

ghost use Rattle.std.specs.Prelude.{◌≡◌, IsTrue, map, unsigned_abs};
ghost use Rattle.buffer_heap.specs.Heaps.{IsLive};
ghost use Rattle.counted_code.specs.Values.{Ref};
ghost use Rattle.phase_kernels.specs.over_checks.Over.{IsFilled};
ghost use Rattle.run_values.specs.Numbers.{numbers};
ghost use Rattle.run_values.specs.Shown.{value_of};
ghost use Rattle.sac_base.specs.Arrays.{size};

use buffer_heap::{BufferId, Heap};
use run_store::same_sizes;
use run_values::{Few, RunValue};
use sac_base::{Base, Shape, elements, same_base};

/// Whether a value is an array of this base and shape in a buffer.
pub fn is_array_in(value: RunValue, base: Base, shape: &Shape, id: BufferId) -> bool
    ensures { IsTrue result → value_of value ≡ Ref id.born base shape.now }
{
    match value {
        RunValue::Buffer(other, buffer, extents) => {
            same_base(other, base) && buffer.born() == id.born() && has_shape(&extents, shape)
        }
        _ => false,
    }
}

// Whether these are the extents of the shape.
fn has_shape(extents: &Few, shape: &Shape) -> bool
    ensures { IsTrue result → map unsigned_abs (numbers extents.now) ≡ shape.now }
{
    same_sizes(extents.as_slice(), shape.extents())
}

/// Whether a buffer is in and has as many cells as an array of this shape.
pub fn is_filled(heap: &Heap, id: BufferId, shape: &Shape) -> bool
    ensures { IsTrue result → IsLive heap.now id.place (IsFilled id.born (size shape.now)) }
{
    if !heap.is_held(id) {
        return false;
    }
    elements(shape) == Some(heap.cells(id).len() as u64)
}

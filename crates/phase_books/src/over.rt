//! Results that are put into the buffer of an array to which there is no other reference.

ghost use Rattle.std.specs.Prelude.{◌≡◌, IsTrue, OnOk};
ghost use Rattle.buffer_heap.specs.Heaps.{IsLive};
ghost use Rattle.phase_books.specs.Over.{settled_over};
ghost use Rattle.run_over.specs.Soles.{IsSoleOf};
ghost use Rattle.run_store.specs.Stands.{lender_of};

use buffer_heap::{BufferId, Heap};
use run_store::Store;
use sac_base::{Cell, Memory};

/// Puts all elements of a result into a buffer that has one reference and as many cells, which counts as reused. What stood there is gone, and its cells are
/// spare ones.
///
/// # Errors
///
/// `Memory`: the buffer is none of the thread's own that is in and has one reference and so many cells.
pub fn settle_over(heap: &mut Store<'_>, id: BufferId, elements: Vec<Cell>) -> Result<(), Memory>
    ensures sole { OnOk result (IsLive heap.old.own id.place (IsSoleOf id.born)) }
    ensures settled { OnOk result (heap.new ≡ record heap.old { own = settled_over heap.old.own id.place elements.items }) }
    ensures lender { lender_of heap.new ≡ lender_of heap.old }
{
    if !is_lone(&heap.own, id) {
        return Err(Memory);
    }
    if heap.own.cells(id).len() != elements.len() {
        return Err(Memory);
    }
    let old = heap.own.reuse(id);
    heap.own.settle(id, elements);
    heap.own.put_spare(old);
    Ok(())
}

// Whether the buffer is in and has one reference.
fn is_lone(heap: &Heap, id: BufferId) -> bool
    ensures { IsTrue result → IsLive heap.now id.place (IsSoleOf id.born) }
{
    if heap.is_held(id) {
        heap.is_sole(id)
    } else {
        false
    }
}

//! The buffers of one thread.

ghost use Rattle.std.specs.Prelude.{◌≡◌, None, Some, length, replicate};
ghost use Rattle.run_store.specs.Lents.{Lender, lender_as};
ghost use Rattle.run_store.specs.Stands.{lender_of};

use crate::lent::{ChunkPart, Lent};
use buffer_heap::Heap;
use count_table::WorkerSeat;

/// The buffers that a thread works with: those of its own heap and, where it works for another thread, those that are lent
/// to it.
#[derive(Drop)]
pub struct Store<'a> {
    pub own: Heap,
    pub lent: Option<Lent<'a>>,
}

impl<'a> Store<'a> {
    /// The buffers of a heap.
    pub fn of(own: Heap) -> Store<'a>
        ensures own { result.own ≡ own }
        ensures lent { result.lent ≡ None }
    {
        Store { own, lent: None }
    }

    /// The buffers of a heap, and others that are lent.
    pub fn with(own: Heap, lent: Lent<'a>) -> Store<'a>
        ensures own { result.own ≡ own }
        ensures lent { result.lent ≡ Some lent.entry }
    {
        Store {
            own,
            lent: Some(lent),
        }
    }

    /// The own heap, and the seat and the list of its holds, which it has given up.
    pub fn close(self) -> (Heap, WorkerSeat<ChunkPart>, Vec<u64>)
        requires { (l : Lender) × (lender_of self ≡ Some l) }
        ensures own { result.0 ≡ self.entry.own }
        ensures seat { (l : Lender) → lender_of self.entry ≡ Some l → result.1 ≡ l.seat }
        ensures holds { (l : Lender) → lender_of self.entry ≡ Some l → result.2.items ≡ replicate (length l.heap.places) 0 }
    {
        let Store { own, lent } = self;
        match lent {
            Some(lent) => {
                let (seat, holds) = close_lent(lent);
                (own, seat, holds)
            }
            None => unreachable!(),
        }
    }
}

fn close_lent(mut lent: Lent<'_>) -> (WorkerSeat<ChunkPart>, Vec<u64>)
    ensures seat { result.0 ≡ (lender_as lent.entry).seat }
    ensures holds { result.1.items ≡ replicate (length lent.entry.heap.places) 0 }
{
    lent.release_all();
    lent.into_parts()
}

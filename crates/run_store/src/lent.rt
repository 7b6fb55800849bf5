//! Buffers of another heap, which lends them while a phase runs.

ghost use Rattle.std.specs.Prelude.{◌≡◌, ◌≢◌, ℕ, ◌<◌, ◌≤◌, IsTrue, ◌↔◌, IfOk, OnOk, ◌^◌, All, [], replicate, length};
ghost use Rattle.buffer_heap.specs.Heaps.{IsLive, IsNamed, at, content_of, count_of, In};
ghost use Rattle.count_table.specs.Seats.{AreReferences};
ghost use Rattle.run_store.specs.Lents.{held_once_more, held_once_less, holds_at, lender_as, opening_counts};

use buffer_heap::{BufferId, Heap};
use buffer_parts::Part;
use count_table::{Phase, WorkerSeat};
use sac_base::{Cell, MOST_REFERENCES, Memory};
use std::alloc::Global;
use std::marker::Model;
use wl_core::MOST_HOLDS;

/// What the table of a phase has for a chunk: the part of the result's buffer that the chunk fills. A fold has none.
pub type ChunkPart = Option<Part<Cell>>;

/// The counts that a phase is opened with which lends the buffers of a heap: at each place that of its buffer, and 1 where
/// there is none.
pub fn lent_counts(alloc: Global, heap: &Heap) -> Result<Vec<u64>, Memory>
    ensures counts { IfOk result (λ counts. counts.items ≡ opening_counts heap.now) }
    ensures range { IfOk result (λ counts. AreReferences counts.items) }
{
    let mut counts = Vec::new(alloc);
    for place in 0..heap.places() {
        let count = heap.count_at(place);
        if count > MOST_REFERENCES {
            return Err(Memory);
        }
        counts.push(if count == 0 { 1 } else { count })?;
    }
    Ok(counts)
}

/// The buffers of another heap. A worker reads them, and keeps and releases them by the table of the phase, in which each
/// place of that heap has a count.
#[derive(Drop)]
pub struct Lent<'a> {
    heap: &'a Heap,
    table: &'a Phase<ChunkPart>,
    seat: WorkerSeat<ChunkPart>,
    // how often the seat holds the buffer at each place, and how many holds it has in all
    holds: Vec<u64>,
    all: u64,
}

impl<'a> Model for Lent<'a> {
    ghost use Rattle.run_store.specs.Lents.{LentValue, lent_value, IsCounted};

    ghost Value = { LentValue };

    ghost view = { λ l. lent_value l.heap.now l.seat l.holds.items };

    ghost invariant = { λ l. IsCounted l.heap.now l.table.now l.seat l.holds.items l.all };
}

impl<'a> Lent<'a> {
    /// The buffers of a heap, none of which the seat holds so far.
    pub fn new(
        heap: &'a Heap,
        table: &'a Phase<ChunkPart>,
        seat: WorkerSeat<ChunkPart>,
        holds: Vec<u64>,
    ) -> Lent<'a>
        requires seat { (seat.phase ≡ table.now) × (seat.holds ≡ []) }
        requires places { table.now.buffers ≡ length heap.now.places }
        requires holds { holds.items ≡ replicate (length heap.now.places) 0 }
        ensures { result ≡ record { heap = heap.now; seat = seat; holds = holds.items } }
    {
        Lent {
            heap,
            table,
            seat,
            holds,
            all: 0,
        }
    }

    /// Whether the buffer is one of these, live and in.
    pub fn has(&self, id: BufferId) -> bool
        ensures { IsTrue result ↔ IsLive self.now.heap id.place (IsNamed id.born) }
    {
        self.heap.is_held(id)
    }

    /// The cells of a buffer.
    pub fn cells(&self, id: BufferId) -> &[Cell]
        requires { IsLive self.now.heap id.place (IsNamed id.born) }
        ensures { content_of (at self.now.heap id.place) ≡ In result.now }
    {
        self.heap.cells(id)
    }

    /// One reference more to a buffer.
    pub fn keep(&mut self, id: BufferId) -> Result<(), Memory>
        ensures live { OnOk result (IsLive self.old.heap id.place (IsNamed id.born) × (id.place < length self.old.holds)) }
        ensures kept { OnOk result (self.new ≡ held_once_more self.old id.place) }
        ensures lender { lender_as self.new ≡ lender_as self.old }
    {
        if self.all >= MOST_HOLDS || !self.heap.is_held(id) {
            return Err(Memory);
        }
        let place = id.place();
        self.table.keep(&mut self.seat, place as u64);
        self.all += 1;
        self.holds[place] += 1;
        Ok(())
    }

    /// One reference less to a buffer that the seat holds.
    pub fn release(&mut self, id: BufferId) -> Result<(), Memory>
        ensures live { OnOk result (IsLive self.old.heap id.place (IsNamed id.born) × (id.place < length self.old.holds)) }
        ensures two { OnOk result ((1 ≤ count_of (at self.old.heap id.place)) × (1 ≤ holds_at self.old id.place)) }
        ensures released { OnOk result (self.new ≡ held_once_less self.old id.place) }
        ensures lender { lender_as self.new ≡ lender_as self.old }
    {
        let place = id.place();
        if !self.heap.is_held(id) || self.heap.count_at(place) == 0 || self.holds_at(place) == 0 {
            return Err(Memory);
        }
        self.give_up(place);
        Ok(())
    }

    // How often the seat holds the buffer at a place.
    fn holds_at(&self, place: usize) -> u64
        ensures holds { result ≡ holds_at self.now place }
        ensures place { 1 ≤ result → place < length self.now.holds }
        ensures each { length self.now.holds ≡ length self.now.heap.places }
    {
        match self.holds.get(place) {
            Some(count) => *count,
            None => 0,
        }
    }

    // One hold less.
    fn give_up(&mut self, place: usize)
        requires { 1 ≤ holds_at self.old place }
        ensures { self.new ≡ held_once_less self.old place }
    {
        self.table.release(&mut self.seat, place as u64);
        self.all -= 1;
        self.holds[place] -= 1;
    }

    // No hold at a place.
    fn give_up_all(&mut self, place: usize)
        ensures none { holds_at self.new place ≡ 0 }
        ensures others { (b : ℕ) → b ≢ place → holds_at self.new b ≡ holds_at self.old b }
        ensures each { length self.new.holds ≡ length self.old.holds }
        ensures lender { lender_as self.new ≡ lender_as self.old }
    {
        let count = self.holds_at(place);
        for _ in 0..count {
            self.give_up(place);
        }
    }

    /// Gives up all holds.
    pub fn release_all(&mut self)
        ensures none { (b : ℕ) → holds_at self.new b ≡ 0 }
        ensures each { length self.new.holds ≡ length self.old.holds }
        ensures lender { lender_as self.new ≡ lender_as self.old }
    {
        if self.all == 0 {
            return;
        }
        for place in 0..self.heap.places() {
            self.give_up_all(place);
        }
    }

    /// The seat and the list of its holds, of which there are none.
    pub fn into_parts(self) -> (WorkerSeat<ChunkPart>, Vec<u64>)
        requires { (b : ℕ) → holds_at self b ≡ 0 }
        ensures seat { result.0 ≡ (lender_as self.entry).seat }
        ensures holds { result.1.items ≡ replicate (length self.entry.heap.places) 0 }
    {
        let Lent {
            heap: _,
            table: _,
            seat,
            holds,
            all: _,
        } = self;
        (seat, holds)
    }
}

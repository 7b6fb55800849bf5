// One phase: its table, the frame's seat and the workers' seats.
ghost use Rattle.std.specs.Prelude.{◌≡◌, ◌≢◌, ℕ, ◌+◌, ◌-◌, ◌%◌, ◌^◌, ◌<◌, ◌≤◌, [], ◌∷◌, ◌++◌, true, false, length, map, slice_index, slice_get};
ghost use Rattle.std.specs.Prelude.{MatchOption, IfSome, IfOk, IfErr, cond, nat_lt, None};
ghost use Rattle.std.specs.Slots.{IsFull};
ghost use Rattle.count_table.specs.Views.{times, without};
ghost use Rattle.count_table.specs.Seats.{PhaseId, WorkerState, FrameState, IsOpened, AreReferences, ended, drew, left};
ghost use Rattle.wl_core.specs.declared.limits.TheConstants.{MOST_CHUNKS, MOST_HOLDS, MOST_WORKERS};

use crate::opening::{Unopened, empty_slots, fill_slots, words_of};
use crate::rule::{Draw, Keep, Leaving, Look, Moving, Opening, PhaseRule, Release, Seating};
use crate::tally::Tally;
use crate::view::View;
use atomic_table::{Closed, Refused, Seat, Table};
use sac_base::Memory;
use std::alloc::Global;
use std::marker::Model;
use std::snapshot::Snapshot;

/// One phase: the next chunk number, the counts of its shared buffers, and the parts of its chunks. Workers share it by
/// reference, and each steps with a seat of its own.
#[derive(Drop)]
pub struct Phase<T: Send + Drop> {
    table: Table<Option<T>, View<T>, Opening<T>, PhaseRule, Global>,
    chunks: u64,
    buffers: usize,
}

impl<T: Send + Drop> Model for Phase<T> {
    ghost use Rattle.std.specs.Prelude.{◌≡◌, ◌+◌, ◌^◌, ◌<◌, length};
    ghost use Rattle.count_table.specs.Seats.{PhaseId, phase_of};

    ghost Value = { PhaseId T };

    ghost view = { λ p. phase_of p.table.shared.table_id p.table.shared.key.parts.value.items p.buffers };

    ghost invariant = { λ p. (p.table.shared.table_id.words ≡ p.buffers + 1)
        × (p.chunks ≡ length p.table.shared.key.parts.value.items) × (p.buffers < 2 ^ 61) × (p.table.shared.table_id.slots ≡ p.chunks) };
}

/// What a worker steps with. It shows the worker's number, what it holds and has drawn, and whether it has drawn None.
#[derive(Drop)]
pub struct WorkerSeat<T> {
    seat: Seat<Option<T>, View<T>>,
    // The chunk that was drawn last, whose part was not taken since.
    ready: Option<u64>,
}

impl<T> Model for WorkerSeat<T> {
    ghost use Rattle.count_table.specs.Seats.{WorkerState, worker_state, IsWorker, IsReady, HoldsWithin};
    ghost use Rattle.count_table.specs.Views.{worker_of};

    ghost Value = { WorkerState T };

    ghost view = { λ s. worker_state s.seat.table_id (worker_of s.seat.me.0) s.ready };

    ghost invariant = { λ s. IsWorker s.seat.me × HoldsWithin (worker_of s.seat.me.0) × IsReady s.ready (worker_of s.seat.me.0) s.seat.me.1 };
}

/// What the frame makes worker seats from, and takes them back into. It shows the counts at the opening, how many seats
/// were made and are out, and what the seats that left had drawn.
#[derive(Drop)]
pub struct FrameSeat<T> {
    seat: Seat<Option<T>, View<T>>,
}

impl<T> Model for FrameSeat<T> {
    ghost use Rattle.count_table.specs.Seats.{FrameState, frame_state, IsFrame};
    ghost use Rattle.count_table.specs.Views.{frame_of};

    ghost Value = { FrameState T };

    ghost view = { λ s. frame_state s.seat.table_id (frame_of s.seat.me.0) };

    ghost invariant = { λ s. IsFrame s.seat.me };
}

impl Phase<()> {
    /// Opens a phase with this count for each shared buffer and this many chunks, which have no parts.
    pub fn open(
        alloc: Global,
        counts: &[u64],
        chunks: u64,
    ) -> Result<(Phase<()>, FrameSeat<()>), Memory>
        requires counts { AreReferences counts.now }
        requires chunks { chunks ≤ MOST_CHUNKS }
        ensures chunks { IfOk result (λ r. length r.0.parts ≡ chunks) }
        ensures opened { IfOk result (λ r. IsOpened counts.now r.0 r.1) }
    {
        let parts = Vec::from_elem(alloc, (), chunks as usize)?;
        match Phase::open_parts(alloc, counts, parts) {
            Ok(opened) => Ok(opened),
            Err(Unopened { parts: _ }) => Err(Memory),
        }
    }
}

impl<T: Send + Drop> Phase<T> {
    /// Opens a phase with this count for each shared buffer and one chunk for each part. Where no memory is found, the
    /// parts come back.
    pub fn open_parts(
        alloc: Global,
        counts: &[u64],
        mut parts: Vec<T>,
    ) -> Result<(Phase<T>, FrameSeat<T>), Unopened<T>>
        requires counts { AreReferences counts.now }
        requires parts { length parts.items ≤ MOST_CHUNKS }
        ensures parts { IfOk result (λ r. r.0.parts ≡ parts.items) }
        ensures opened { IfOk result (λ r. IsOpened counts.now r.0 r.1) }
        ensures back { IfErr result (λ e. e.parts.items ≡ parts.items) }
    {
        let Ok(words) = words_of(alloc, counts) else {
            return Err(Unopened { parts });
        };
        let Ok(mut slots) = Vec::with_capacity(alloc, parts.len()) else {
            return Err(Unopened { parts });
        };
        let chunks = parts.len() as u64;
        let about = Opening {
            words: Snapshot::of(&words),
            parts: Snapshot::of(&parts),
        };
        fill_slots(&mut parts, &mut slots);
        match Table::new(alloc, words.as_slice(), slots, &about) {
            Ok((table, seat)) => {
                let phase = Phase {
                    table,
                    chunks,
                    buffers: counts.len(),
                };
                Ok((phase, FrameSeat { seat }))
            }
            Err(Refused { slots }) => {
                empty_slots(slots, &mut parts);
                Err(Unopened { parts })
            }
        }
    }

    /// Makes a seat for one worker, which holds nothing and has drawn nothing. The seats of a phase are numbered from 0.
    pub fn seat(&self, frame: &mut FrameSeat<T>) -> WorkerSeat<T>
        requires phase { frame.old.phase ≡ self.now }
        requires room { frame.old.made < MOST_WORKERS }
        ensures frame { frame.new ≡ record frame.old { made = frame.old.made + 1; out = frame.old.out + 1 } }
        ensures seat { result ≡ record { phase = self.now; number = frame.old.made; holds = []; drawn = []; ended = false; ready = None } }
    {
        let seat = self.table.shared.split_seat::<Seating>(&mut frame.seat);
        WorkerSeat { seat, ready: None }
    }

    /// Draws the next chunk, in one atomic step. None comes exactly where no chunk is left, and ends the seat's draws.
    pub fn draw(&self, seat: &mut WorkerSeat<T>) -> Option<u64>
        requires phase { seat.old.phase ≡ self.now }
        requires more { seat.old.ended ≡ false }
        ensures later { IfSome result (λ c. (k : ℕ) → 0 < times k seat.old.drawn → k < c) }
        ensures drawn { MatchOption result (seat.new ≡ ended seat.old) (λ c. (c < length self.now.parts) × (seat.new ≡ drew seat.old c)) }
    {
        let next = self.table.shared.fetch_add::<Draw>(&mut seat.seat, 0, 1);
        seat.ready = if next < self.chunks { Some(next) } else { None };
        seat.ready
    }

    /// The part of the chunk that the seat drew last. Nobody else can take it.
    pub fn take(&self, seat: &mut WorkerSeat<T>) -> T
        requires phase { seat.old.phase ≡ self.now }
        requires ready { seat.old.ready ≢ None }
        ensures part { MatchOption seat.old.ready ⊥ (λ c. slice_get self.now.parts c ≡ Some result) }
        ensures seat { seat.new ≡ record seat.old { ready = None } }
    {
        let Some(chunk) = seat.ready else {
            unreachable!()
        };
        seat.ready = None;
        match self
            .table
            .shared
            .exchange(&mut seat.seat, chunk as usize, None)
        {
            Some(part) => part,
            None => unreachable!(),
        }
    }

    /// Holds a shared buffer once more, in one atomic step.
    pub fn keep(&self, seat: &mut WorkerSeat<T>, buffer: u64)
        requires phase { seat.old.phase ≡ self.now }
        requires buffer { buffer < self.now.buffers }
        requires room { length seat.old.holds < MOST_HOLDS }
        ensures { seat.new ≡ record seat.old { holds = buffer ∷ seat.old.holds } }
    {
        self.table
            .shared
            .fetch_add::<Keep>(&mut seat.seat, buffer as usize + 1, 1);
    }

    /// Holds a shared buffer once less, in one atomic step. The frame has a reference of its own, so this never frees it.
    pub fn release(&self, seat: &mut WorkerSeat<T>, buffer: u64)
        requires phase { seat.old.phase ≡ self.now }
        requires held { 0 < times buffer seat.old.holds }
        ensures { seat.new ≡ record seat.old { holds = without buffer seat.old.holds } }
    {
        self.table
            .shared
            .fetch_sub::<Release>(&mut seat.seat, buffer as usize + 1, 1);
    }

    /// Whether a shared buffer that the seat holds has no other reference. It always has one, the frame's.
    pub fn is_sole(&self, seat: &mut WorkerSeat<T>, buffer: u64) -> bool
        requires phase { seat.old.phase ≡ self.now }
        requires held { 0 < times buffer seat.old.holds }
        ensures never { result ≡ false }
        ensures same { seat.new ≡ seat.old }
    {
        self.table
            .shared
            .load::<Look>(&mut seat.seat, buffer as usize + 1)
            == 1
    }

    /// Takes back a seat that holds nothing. The frame takes over what the seat drew.
    pub fn leave(&self, seat: WorkerSeat<T>, frame: &mut FrameSeat<T>)
        requires phase { (frame.old.phase ≡ self.now) × (seat.phase ≡ self.now) }
        requires holds { seat.holds ≡ [] }
        ensures { frame.new ≡ left frame.old seat }
    {
        let WorkerSeat { mut seat, ready: _ } = seat;
        let moved = self.table.shared.split_seat::<Moving>(&mut seat);
        self.table
            .shared
            .join_seat::<Leaving>(&mut frame.seat, moved);
    }

    /// Ends the phase once every seat has left. The counts are those of the opening, the frame's chunks are each there
    /// once, and they are all chunks where some seat had drawn None. Parts that were not taken are dropped.
    pub fn close(self, frame: FrameSeat<T>, into: &mut [u64], tally: &mut Tally)
        requires phase { frame.phase ≡ self }
        requires left { frame.out ≡ 0 }
        requires room { length into.old ≡ self.buffers }
        ensures counts { into.new ≡ frame.opening }
        ensures tally { tally.new ≡ record { phases = (tally.old.phases + 1) % 2 ^ 64; draws = (tally.old.draws + length frame.drawn) % 2 ^ 64 } }
        ensures each_once { (x : ℕ) → times x (map (λ p. p.0) frame.drawn) ≡ cond (nat_lt x (length frame.drawn)) 1 0 }
        ensures few { length frame.drawn ≤ length self.parts }
        ensures whole { 0 < frame.nones → length frame.drawn ≡ length self.parts }
    {
        let Phase {
            table,
            chunks,
            buffers: _,
        } = self;
        let FrameSeat { seat } = frame;
        let closed = table.close_with(seat);
        tally.raise(1, closed.word(0).min(chunks));
        for (b, count) in into.iter_mut().enumerate() {
            *count = closed.word(b + 1);
        }
        discard(closed);
    }
}

// Drops each part that was not taken.
fn discard<T: Drop>(mut closed: Closed<Option<T>, Global>)
    requires { IsFull closed.slots }
{
    for slot in 0..closed.slot_count() {
        drop(closed.take(slot));
    }
    closed.free();
}

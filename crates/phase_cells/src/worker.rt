// The worker of a phase.
ghost use Rattle.std.specs.Prelude.{◌≡◌, ℕ, ℤ, List, length, None};
ghost use Rattle.buffer_heap.specs.Heaps.{at};
ghost use Rattle.phase_cells.specs.Idle.{IsIdle, IsLending, WentOn, counter, counter_behind, raise};
ghost use Rattle.wl_core.specs.Machine.{CellValue};
ghost use Rattle.phase_team.specs.Segments.{IsComputed, Tells};

use crate::runs::CellRuns;
use buffer_heap::Heap;
use count_table::{Phase, WorkerSeat};
use phase_draws::{ChunkPart, PhaseCells};
use phase_team::CellEnd;
use run_store::{Lent, Store};
use sac_base::{Cell, Memory, Stop};
use std::alloc::Global;
use std::mem;

/// What a worker has between two cells: a heap of its own, how often it holds each buffer that is lent, and what else a
/// cell needs, unless one was stopped.
#[derive(Drop)]
pub struct CellWorker<S> {
    pub heap: Heap,
    pub holds: Vec<u64>,
    pub scratch: Option<S>,
}

/// Cells that are computed by the workers of a phase, on the buffers that a heap lends.
#[derive(Drop)]
pub struct LentCells<'a, C: CellRuns> {
    pub alloc: Global,
    pub cells: &'a C,
}

impl<'a, C: CellRuns> PhaseCells<Heap> for LentCells<'a, C> {
    type Worker = CellWorker<C::Scratch>;

    ghost cell = { λ s p. C.cell s.cells.now p };

    ghost positions = { λ s. C.positions s.cells.now };

    ghost width = { λ s. C.width s.cells.now };

    ghost shared = { λ s. length (C.lends s.cells.now).places };

    ghost idle = { λ s w. IsIdle (C.ready s.cells.now) (C.opens s.cells.now) (C.lends s.cells.now) w.heap w.holds.items w.scratch };

    ghost open_home = { λ s h. IsLending (C.opens s.cells.now) (C.lends s.cells.now) };

    ghost spent = { λ s w kind. counter_behind (C.lends s.cells.now) w.heap kind };

    ghost kept = { λ s h kind. counter h kind };

    ghost cost = { λ s kind p. raise (C.takes s.cells.now p) kind };

    fn begin(&self, _home: &Heap) -> Result<CellWorker<C::Scratch>, Memory> {
        let lends = self.cells.heap();
        let scratch = self.cells.begin()?;
        let holds = vec![in self.alloc; 0; lends.places()]?;
        Ok(CellWorker {
            heap: Heap::behind(lends),
            holds,
            scratch: Some(scratch),
        })
    }

    fn cell(
        &self,
        worker: &mut CellWorker<C::Scratch>,
        table: &Phase<ChunkPart>,
        seat: &mut Option<WorkerSeat<ChunkPart>>,
        position: usize,
        into: &mut [Cell],
    ) -> CellEnd {
        let Some(scratch) = &mut worker.scratch else {
            return CellEnd::Stopped(Stop::Memory);
        };
        if let Some(end) = self.cells.run_alone(scratch, position, into) {
            return end;
        }
        let Some(own_seat) = seat.take() else {
            return CellEnd::Stopped(Stop::Memory);
        };
        let holds = mem::replace(&mut worker.holds, Vec::new(self.alloc));
        let own = mem::replace(&mut worker.heap, Heap::new(self.alloc));
        let lent = Lent::new(self.cells.heap(), table, own_seat, holds);
        let mut store = Store::with(own, lent);
        let end = self.cells.run(scratch, &mut store, position, into);
        let (mut heap, back, counts) = store.close();
        let end = left_by(end, &mut heap);
        stop_after(end, &mut worker.scratch);
        worker.heap = heap;
        worker.holds = counts;
        *seat = Some(back);
        end
    }

    fn stretch(
        &self,
        worker: &mut CellWorker<C::Scratch>,
        start: usize,
        count: usize,
        rows: &mut [Cell],
    ) -> usize {
        match &mut worker.scratch {
            Some(scratch) => self.cells.run_together(scratch, start, count, rows),
            None => 0,
        }
    }

    fn finish(&self, worker: CellWorker<C::Scratch>, home: &mut Heap) -> Result<(), Memory> {
        home.follow(&worker.heap, self.cells.heap())?;
        home.absorb(worker.heap);
        Ok(())
    }
}

// What a cell came to, where it has left no buffer. Buffers of a cell that was stopped are given back; if one that was
// computed has left a buffer, of which there is none in well-counted code, that counts as want of memory.
fn left_by(end: CellEnd, heap: &mut Heap) -> CellEnd
    ensures empty { (b : ℕ) → at heap.new b ≡ None }
    ensures same { IsComputed result → IsComputed end × (heap.new ≡ heap.old) }
    ensures tells { (meaning : CellValue) → (elements : List ℤ) → Tells meaning elements end → Tells meaning elements result }
{
    if heap.live() == 0 {
        return end;
    }
    heap.clear();
    match end {
        CellEnd::Value | CellEnd::NotHeld => CellEnd::Stopped(Stop::Memory),
        CellEnd::Stopped(_) => end,
    }
}

// After a cell that was stopped no other one is computed.
fn stop_after<S: Drop>(end: CellEnd, scratch: &mut Option<S>)
    ensures { WentOn end scratch.old scratch.new }
{
    match end {
        CellEnd::Value | CellEnd::NotHeld => {}
        CellEnd::Stopped(_) => *scratch = None,
    }
}

//! The cells of with-loops and of parted loops.

ghost use Rattle.std.specs.Prelude.{◌≡◌, ◌<◌, ℕ, length, OnOk};
ghost use Rattle.counted_code.specs.Loops.{cell_does};
ghost use Rattle.counted_code.specs.Values.{Heap as MachineHeap};
ghost use Rattle.phase_loop_cells.specs.Cells.{ToldCell, fill_at, index_at, source_cell, source_taken};
ghost use Rattle.phase_loop_cells.specs.Opened.{OpenSource};
ghost use Rattle.phase_loop_cells.specs.Ready.{IsReady};
ghost use Rattle.phase_loop_cells.specs.Walks.{IsWalk};
ghost use Rattle.run_loops.specs.Loops.{source_at};
ghost use Rattle.run_loops.specs.Running.{IsAt};
ghost use Rattle.run_store.specs.Stands.{lender_of};
ghost use Rattle.run_values.specs.Scopes.{current};
ghost use Rattle.sac_base.specs.Arrays.{size};

use crate::copies::{Background, ended, put};
use crate::scratch::CellScratch;
use crate::walk::Walk;
use array_with_loops::Plan;
use buffer_heap::Heap;
use phase_cells::CellRuns;
use phase_count::PhaseCount;
use phase_team::CellEnd;
use run_eval::body_in_order;
use run_loops::{CellSource, Context, State};
use run_store::Store;
use run_values::Frames;
use sac_base::{Cell, Memory, Stop};
use std::mem;

/// The cells of a loop whose checks have passed, of the variables of a call and the buffers of a heap.
#[derive(Clone, Copy)]
pub struct LoopCells<'a> {
    pub context: Context<'a>,
    pub heap: &'a Heap,
    pub frames: &'a Frames<'a>,
    /// Where the cells come from.
    pub source: CellSource<'a>,
    /// The indices, what each cell must be, and the ranges of generators.
    pub plan: &'a Plan,
    /// What stands where an index has no cell, unless nothing does.
    pub background: Option<Background<'a>>,
}

impl<'a> CellRuns for LoopCells<'a> {
    type Scratch = CellScratch<'a>;

    ghost cell = { λ s p. source_cell s.context s.heap.now (current s.frames.now) s.source s.plan.now s.background p };

    ghost takes = { λ s p. source_taken s.context s.heap.now (current s.frames.now) s.source s.plan.now p };

    ghost positions = { λ s. length s.plan.now.frame };

    ghost width = { λ s. size s.plan.now.form.shape };

    ghost lends = { λ s. s.heap.now };

    ghost opens = { λ s k. OpenSource s.context s.heap.now (current s.frames.now) s.source k };

    ghost ready = { λ s scratch. IsReady s scratch };

    fn heap(&self) -> &Heap {
        self.heap
    }

    fn begin(&self) -> Result<CellScratch<'a>, Memory> {
        CellScratch::of(self.frames, &self.source, self.plan, self.context.alloc)
    }

    fn run(
        &self,
        scratch: &mut CellScratch<'a>,
        store: &mut Store<'_>,
        position: usize,
        into: &mut [Cell],
    ) -> CellEnd {
        let alloc = self.context.alloc;
        let variables = mem::replace(&mut scratch.frames, Frames::new(alloc));
        let buffers = mem::replace(store, Store::of(Heap::new(alloc)));
        let mut state = State {
            frames: variables,
            heap: buffers,
            phases: PhaseCount::within_cell(),
        };
        let answer = cell_at(self, position, &mut scratch.walk, &mut state, into);
        let (frames, heap) = state.into_parts();
        scratch.frames = frames;
        *store = heap;
        ended(answer)
    }
}

// Computes the cell of a position, to which the walk goes.
fn cell_at(
    cells: &LoopCells<'_>,
    position: usize,
    walk: &mut Walk,
    state: &mut State<'_, '_>,
    into: &mut [Cell],
) -> Result<bool, Stop>
    requires walk { IsWalk cells.now.source cells.now.plan.now walk.old }
    requires position { position < length cells.now.plan.now.frame }
    ensures told { (m : MachineHeap) → IsAt state.old m
        → ToldCell (fill_at cells.now.background position) into.new result state.new
        (cell_does cells.now.plan.now.form (source_at cells.now.context (current state.old.frames) cells.now.source cells.now.plan.now.ranges.items
        (index_at cells.now.plan.now.frame position)) m) }
    ensures current { OnOk result (current state.new.frames ≡ current state.old.frames) }
    ensures walk { IsWalk cells.now.source cells.now.plan.now walk.new }
    ensures lender { lender_of state.new.heap ≡ lender_of state.old.heap }
{
    let body = walk.go_to(&cells.source, cells.plan, position)?;
    let form = &cells.plan.form;
    let value = body_in_order(body, form, walk.index(), &cells.context, state)?;
    let written = put(&mut state.heap, value, cells.background, position, into)?;
    Ok(written)
}

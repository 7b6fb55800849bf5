//! The kernels of a phase, which its workers share.

ghost use Rattle.std.specs.Prelude.{◌≡◌, IfOk, length};
ghost use Rattle.phase_kernels.specs.Ready.{IsKernelReady};
ghost use Rattle.phase_loop_cells.specs.Cells.{source_cell, source_taken};
ghost use Rattle.phase_loop_cells.specs.Opened.{OpenSource};
ghost use Rattle.run_values.specs.Scopes.{current};
ghost use Rattle.sac_base.specs.Arrays.{size};

use crate::cells::KernelCells;
use crate::lists::{KernelList, kernels_for};
use crate::lowering::lowering_of;
use crate::scope::lent_scope;
use crate::scratch::{KernelScratch, begin_once, make_room, put_one};
use crate::worth::most_steps;
use array_with_loops::Range;
use buffer_heap::Heap;
use kept_kernels::LoopTable;
use kernel_buffers::Buffer;
use kernel_rows::{LoopKernels, run_cell, run_row};
use phase_cells::CellRuns;
use phase_loop_cells::{LoopCells, made_ranges, source_ranges};
use phase_team::CellEnd;
use run_kernels::Scope;
use run_store::Store;
use sac_base::{Cell, Memory, Stop};
use std::marker::Model;

/// The cells of a loop, by kernels where the bodies of its source have some. These are made once, for all workers of a phase.
#[derive(Drop)]
pub struct PhaseKernels<'a> {
    of: KernelCells<'a>,
    ranges: Vec<Range>,
    kernels: KernelList<'a>,
    buffers: Vec<Buffer<'a>>,
}

impl<'a> Model for PhaseKernels<'a> {
    ghost use Rattle.std.specs.Coded.{codes};
    ghost use Rattle.counted_code.specs.contracts.tree.Code as code;
    ghost use Rattle.counted_code.specs.contracts.tree.CodeGen as gen;
    ghost use Rattle.counted_code.specs.contracts.tree.CodePart as part;
    ghost use Rattle.phase_kernels.specs.declared.cells.KernelCells.{KernelCells};
    ghost use Rattle.phase_kernels.specs.Listed.{listed};
    ghost use Rattle.phase_kernels.specs.Made.{AreKernelsOf};

    ghost Value = { KernelCells };

    ghost coded = { Prim.hlevel (codes, code.the_row.coded, gen.the_row.coded, part.the_row.coded) };

    ghost view = { λ k. k.of };

    ghost invariant = { λ k. AreKernelsOf k.of k.ranges.items (listed k.kernels) k.buffers.items };
}

impl<'a> PhaseKernels<'a> {
    /// These cells with kernels, by the table where that keeps them. Where memory is lacking there are none.
    pub fn of(cells: KernelCells<'a>, table: &'a LoopTable<'_>) -> PhaseKernels<'a>
        ensures { result ≡ cells.entry }
    {
        match with_kernels(cells, table) {
            Ok(made) => made,
            Err(Memory) => PhaseKernels::without(cells),
        }
    }

    // These cells without kernels.
    fn without(cells: KernelCells<'a>) -> PhaseKernels<'a>
        ensures { result ≡ cells.entry }
    {
        let alloc = cells.cells.context.alloc;
        PhaseKernels {
            of: cells,
            ranges: Vec::new(alloc),
            kernels: KernelList::none(alloc),
            buffers: Vec::new(alloc),
        }
    }

    /// The cells.
    pub fn cells(&self) -> &KernelCells<'a>
        ensures { result.now ≡ self.now }
    {
        &self.of
    }

    /// How many steps of strips a cell takes at most, where each generator or part has a kernel with strips. None where one has not.
    pub fn strip_steps(&self) -> Option<usize> {
        most_steps(self.kernels.all())
    }
}

// These cells with kernels.
fn with_kernels<'a>(
    cells: KernelCells<'a>,
    table: &'a LoopTable<'_>,
) -> Result<PhaseKernels<'a>, Memory>
    ensures { IfOk result (λ made. made ≡ cells.entry) }
{
    let LoopCells {
        context,
        heap,
        frames,
        source,
        plan,
        background: _,
    } = cells.cells;
    let alloc = context.alloc;
    let Scope { known, buffers } = lent_scope(alloc, cells.live, frames, heap)?;
    let ranges = made_ranges(alloc, &source)?;
    let kernels = kernels_for(
        table,
        lowering_of(&context),
        &source,
        source_ranges(&source, plan, &ranges),
        &plan.form,
        &known,
    )?;
    Ok(PhaseKernels {
        of: cells,
        ranges,
        kernels,
        buffers,
    })
}

impl<'a> CellRuns for PhaseKernels<'a> {
    type Scratch = KernelScratch<'a>;

    ghost cell = { λ s p. source_cell s.cells.context s.cells.heap.now (current s.cells.frames.now) s.cells.source s.cells.plan.now s.cells.background p };

    ghost takes = { λ s p. source_taken s.cells.context s.cells.heap.now (current s.cells.frames.now) s.cells.source s.cells.plan.now p };

    ghost positions = { λ s. length s.cells.plan.now.frame };

    ghost width = { λ s. size s.cells.plan.now.form.shape };

    ghost lends = { λ s. s.cells.heap.now };

    ghost opens = { λ s k. OpenSource s.cells.context s.cells.heap.now (current s.cells.frames.now) s.cells.source k };

    ghost ready = { λ s scratch. IsKernelReady s scratch };

    fn heap(&self) -> &Heap {
        self.of.cells.heap()
    }

    fn begin(&self) -> Result<KernelScratch<'a>, Memory> {
        Ok(KernelScratch {
            cells: None,
            room: None,
        })
    }

    fn run_alone(
        &self,
        scratch: &mut KernelScratch<'a>,
        position: usize,
        into: &mut [Cell],
    ) -> Option<CellEnd> {
        let list = self.kernels.all();
        if list.is_empty() {
            return None;
        }
        let cells = &self.of.cells;
        let kernels = LoopKernels {
            frame: &cells.plan.frame,
            ranges: source_ranges(&cells.source, cells.plan, &self.ranges),
            kernels: list,
            buffers: &self.buffers,
            turns: cells.context.turns,
        };
        make_room(cells.context.alloc, list, &mut scratch.room);
        let Some(room) = &mut scratch.room else {
            return None;
        };
        match run_cell(&kernels, room, position)? {
            Ok(n) => {
                if !put_one(into, n) {
                    return None;
                }
                Some(CellEnd::Value)
            }
            Err(fault) => Some(CellEnd::Stopped(Stop::Faulted(fault))),
        }
    }

    fn run_together(
        &self,
        scratch: &mut KernelScratch<'a>,
        start: usize,
        count: usize,
        rows: &mut [Cell],
    ) -> usize {
        let cells = &self.of.cells;
        let list = self.kernels.all();
        if list.is_empty() && cells.background.is_none() {
            return 0;
        }
        let kernels = LoopKernels {
            frame: &cells.plan.frame,
            ranges: source_ranges(&cells.source, cells.plan, &self.ranges),
            kernels: list,
            buffers: &self.buffers,
            turns: cells.context.turns,
        };
        make_room(cells.context.alloc, list, &mut scratch.room);
        let Some(room) = &mut scratch.room else {
            return 0;
        };
        let done = run_row(&kernels, room, start, count, rows);
        if done > 0 {
            return done;
        }
        cells.fill_free(&self.ranges, &mut room.index, start, count, rows)
    }

    fn run(
        &self,
        scratch: &mut KernelScratch<'a>,
        store: &mut Store<'_>,
        position: usize,
        into: &mut [Cell],
    ) -> CellEnd {
        let Ok(()) = begin_once(&self.of.cells, &mut scratch.cells) else {
            return CellEnd::Stopped(Stop::Memory);
        };
        match &mut scratch.cells {
            Some(cells) => self.of.cells.run(cells, store, position, into),
            None => CellEnd::Stopped(Stop::Memory),
        }
    }
}

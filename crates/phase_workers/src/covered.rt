//! The cells of a loop in which each position has a cell, computed by a team.

ghost use Rattle.std.specs.Prelude.{◌≡◌, ◌≢◌, ◌*◌, ◌<◌, ◌≤◌, ℕ, ℤ, List, IfOk, IsTrue, Ok, None, is_some, length};
ghost use Rattle.std.specs.Thread.{IsSync};
ghost use Rattle.counted_code.specs.View.{code_program};
ghost use Rattle.phase_books.specs.Alive.{AreAlive};
ghost use Rattle.phase_books.specs.Homes.{ComputesAll, IsBooked, left_in, new_behind};
ghost use Rattle.phase_cells.specs.Idle.{IsLending};
ghost use Rattle.phase_kernels.specs.Ready.{IsKernelReady};
ghost use Rattle.phase_loop_cells.specs.Opened.{OpenSource, SourceIn};
ghost use Rattle.phase_team.specs.Segments.{IsComputed, Tells, cells_from, cost_from};
ghost use Rattle.phase_workers.specs.Covered.{AreCovered, AreWhole, EndsIf, IfEnded, IsWhole, cell_of, must_be_there, taken_of};
ghost use Rattle.run_loops.specs.Loops.{held_body};
ghost use Rattle.run_values.specs.Scopes.{current};
ghost use Rattle.sac_base.specs.Arrays.{size};
ghost use Rattle.wl_core.specs.Machine.{CellValue};

use crate::teams::team_for;
use array_with_loops::IndexVector;
use buffer_heap::Heap;
use counted_code::{Code, CodeGen, CodePart};
use kernel_rows::CellKernel;
use phase_books::{Books, Workers, compute_array};
use phase_cells::CellRuns;
use phase_kernels::{KernelCells, KernelScratch, PhaseKernels};
use phase_loop_cells::LoopCells;
use phase_team::{CellEnd, Gate};
use run_kernels::CallKernel;
use run_loops::body_at;
use run_store::Store;
use sac_base::{Cell, Memory, Stop, elements};
use std::thread::Threads;

/// The cells of a loop, where a position without one counts as want of memory.
#[derive(Drop)]
pub struct CoveredCells<'a> {
    pub cells: PhaseKernels<'a>,
}

impl<'a> CellRuns for CoveredCells<'a> {
    type Scratch = KernelScratch<'a>;

    ghost cell = { λ s p. must_be_there (cell_of s.cells p) };

    ghost takes = { λ s p. taken_of s.cells p };

    ghost positions = { λ s. length s.cells.cells.plan.now.frame };

    ghost width = { λ s. size s.cells.cells.plan.now.form.shape };

    ghost lends = { λ s. s.cells.cells.heap.now };

    ghost opens = { λ s k. OpenSource s.cells.cells.context s.cells.cells.heap.now (current s.cells.cells.frames.now) s.cells.cells.source k };

    ghost ready = { λ s scratch. IsKernelReady s.cells scratch };

    fn heap(&self) -> &Heap {
        self.cells.heap()
    }

    fn begin(&self) -> Result<KernelScratch<'a>, Memory> {
        self.cells.begin()
    }

    fn run_alone(
        &self,
        scratch: &mut KernelScratch<'a>,
        position: usize,
        into: &mut [Cell],
    ) -> Option<CellEnd> {
        let end = self.cells.run_alone(scratch, position, into)?;
        Some(covered(end))
    }

    fn run_together(
        &self,
        scratch: &mut KernelScratch<'a>,
        start: usize,
        count: usize,
        rows: &mut [Cell],
    ) -> usize {
        self.cells.run_together(scratch, start, count, rows)
    }

    fn run(
        &self,
        scratch: &mut KernelScratch<'a>,
        store: &mut Store<'_>,
        position: usize,
        into: &mut [Cell],
    ) -> CellEnd {
        covered(self.cells.run(scratch, store, position, into))
    }
}

fn covered(end: CellEnd) -> CellEnd
    ensures tells { (cell : CellValue) (elements : List ℤ) → Tells cell elements end → Tells (must_be_there cell) elements result }
    ensures computed { IsComputed result → IsComputed end }
{
    match end {
        CellEnd::NotHeld => CellEnd::Stopped(Stop::Memory),
        _ => end,
    }
}

/// Computes the cells of all indices, each at its place. Where it says anything, each index has a cell, or something stands
/// there.
pub fn all_cells<G: Gate, R: Threads + Sync>(
    workers: &Workers<'_, '_, G, R>,
    cells: &KernelCells<'_>,
    into: &mut [Cell],
    books: &mut Books,
) -> Result<(), Stop>
    requires counted { SourceIn (code_program cells.now.cells.context.code.now) cells.now.cells.source cells.now.live.now }
    requires alive { AreAlive cells.now.cells.heap.now (current cells.now.cells.frames.now) cells.now.live.now }
    requires home { books.old.home ≡ new_behind cells.now.cells.heap.now }
    ensures booked { IsBooked (length cells.now.cells.plan.now.frame) books.old books.new result }
    ensures computed { ComputesAll (cells_from (cell_of cells.now) 0 (length cells.now.cells.plan.now.frame)) cells.now.cells.heap.now
        (cost_from (taken_of cells.now) 0 (length cells.now.cells.plan.now.frame)) into.new (left_in books.new.home result) }
    ensures there { IfEnded result ((place : ℕ) → place < length cells.now.cells.plan.now.frame → cell_of cells.now place ≢ Ok None) }
{
    let _code = cells.cells.context.code.get();
    cells.cells.heap.buffers_are_numbered();
    let plan = cells.cells.plan;
    let Some(size) = elements(&plan.form.shape) else {
        return Err(Stop::Memory);
    };
    let width = size as usize;
    let count = plan.frame.count();
    if count > MOST || count.checked_mul(width) != Some(into.len()) {
        return Err(Stop::Memory);
    }
    let end = each_cell(workers, cells, count, width, into, books);
    believed(end, cells)
}

// The same of so many positions and elements of a cell.
fn each_cell<G: Gate, R: Threads + Sync>(
    workers: &Workers<'_, '_, G, R>,
    cells: &KernelCells<'_>,
    count: usize,
    width: usize,
    into: &mut [Cell],
    books: &mut Books,
) -> Result<(), Stop>
    requires positions { (count ≤ 16777216) × (count ≡ length cells.now.cells.plan.now.frame)
        × (width ≡ size cells.now.cells.plan.now.form.shape) }
    requires lending { IsLending (OpenSource cells.now.cells.context cells.now.cells.heap.now
        (current cells.now.cells.frames.now) cells.now.cells.source) cells.now.cells.heap.now }
    requires room { length into.old ≡ count * width }
    requires home { books.old.home ≡ new_behind cells.now.cells.heap.now }
    ensures booked { IsBooked count books.old books.new result }
    ensures computed { ComputesAll (cells_from (λ p. must_be_there (cell_of cells.now p)) 0 count) cells.now.cells.heap.now
        (cost_from (taken_of cells.now) 0 count) into.new (left_in books.new.home result) }
{
    shares::<CodePart>();
    shares::<CodeGen>();
    shares::<Code>();
    shares::<CallKernel>();
    shares::<Option<CellKernel>>();
    let kernels = PhaseKernels::of(*cells, workers.kernels);
    let team = team_for(workers, &kernels);
    let covered = CoveredCells { cells: kernels };
    compute_array(&team, &covered, count, width, into, books)
}

// The end of a phase of such cells, in which a fault is believed only where each position has a cell or something stands
// there: to look at all of them takes long, and a fault is the last thing that a program does.
fn believed(end: Result<(), Stop>, cells: &KernelCells<'_>) -> Result<(), Stop>
    ensures { EndsIf (AreWhole cells.now) end result }
{
    match end {
        Err(Stop::Faulted(fault)) => match is_whole(&cells.cells) {
            Ok(true) => Err(Stop::Faulted(fault)),
            _ => Err(Stop::Memory),
        },
        _ => end,
    }
}

fn is_whole(cells: &LoopCells<'_>) -> Result<bool, Memory>
    ensures { IfOk result (λ b. IsTrue b → IsWhole cells.now.background cells.now.source cells.now.plan.now.ranges.items cells.now.plan.now.frame) }
{
    match cells.background {
        Some(_) => Ok(true),
        None => are_covered(cells),
    }
}

// Whether each index has a cell.
fn are_covered(cells: &LoopCells<'_>) -> Result<bool, Memory>
    ensures { IfOk result (λ b. IsTrue b → AreCovered cells.now.source cells.now.plan.now.ranges.items cells.now.plan.now.frame) }
{
    let mut index = IndexVector::new(cells.context.alloc);
    for place in 0..cells.plan.frame.count() {
        cells.plan.frame.index(place, &mut index)?;
        if !is_held(cells, index.components()) {
            return Ok(false);
        }
    }
    Ok(true)
}

// Whether an index has a cell.
fn is_held(cells: &LoopCells<'_>, index: &[i32]) -> bool
    ensures { result ≡ is_some (held_body cells.now.source cells.now.plan.now.ranges.items index.now) }
{
    match body_at(&cells.source, &cells.plan.ranges, index) {
        Some(_) => true,
        None => false,
    }
}

// A law. Values of the type may be shared among threads.
pub fn shares<X: Sync>()
    ensures { IsSync X.row }
{}

/// The most positions of a phase.
pub const MOST: usize = 16_777_216;

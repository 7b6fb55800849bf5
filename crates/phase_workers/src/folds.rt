//! Folds of cells that workers compute.

ghost use Rattle.std.specs.Thread.{IsSync};
ghost use Rattle.std.specs.Prelude.{◌≡◌, ◌≤◌, IsTrue, None, OnOk, fold, length, true};
ghost use Rattle.counted_code.specs.Loops.{job_does};
ghost use Rattle.counted_code.specs.Values.{Heap as MachineHeap};
ghost use Rattle.counted_code.specs.View.{code_program};
ghost use Rattle.phase_books.specs.Alive.{AreAlive};
ghost use Rattle.phase_books.specs.Homes.{CombinesAll, IsBooked, left_in, new_behind};
ghost use Rattle.phase_cells.specs.Idle.{IsLending};
ghost use Rattle.phase_loop_cells.specs.Cells.{source_cell, source_taken};
ghost use Rattle.phase_loop_cells.specs.Opened.{OpenSource, SourceIn};
ghost use Rattle.phase_team.specs.Segments.{cells_from, cost_from};
ghost use Rattle.phase_workers.specs.Covered.{cell_of, taken_of};
ghost use Rattle.phase_workers.specs.Sources.{StandsApart};
ghost use Rattle.run_loops.specs.Jobs.{cells_job};
ghost use Rattle.run_loops.specs.Running.{IsAt, IsValue, SameScopes, Told};
ghost use Rattle.run_store.specs.Stands.{lender_of};
ghost use Rattle.run_values.specs.Scopes.{current};
ghost use Rattle.sac_base.specs.Arrays.{size};
ghost use Rattle.sac_base.specs.Verdict.{folds as folds_value};
ghost use Rattle.sac_base.specs.WithLoops.{combined, fits_form as fits_form_value};

use crate::covered::{MOST, shares};
use crate::teams::team_for;
use array_with_loops::{Plan, fits_form};
use core_ir::Var;
use counted_code::{Code, CodeGen, CodePart};
use kernel_rows::CellKernel;
use phase_books::{
    Begun, Books, Workers, begin_phase, compute_fold, end_phase, finish_phase, stop_phase,
};
use phase_kernels::{KernelCells, PhaseKernels};
use phase_loop_cells::LoopCells;
use phase_team::Gate;
use run_kernels::CallKernel;
use run_loops::{CellLoop, Context, State};
use run_values::RunValue;
use sac_base::{Array, Base, Cell, Op, Stop};
use std::thread::Threads;

/// Whether the operator folds cells of the plan's form, which the neutral value has as well.
pub fn is_fold(plan: &Plan, op: Op, neutral: &Array) -> bool
    ensures op { IsTrue result → IsTrue (folds_value plan.now.form.base op) }
    ensures form { IsTrue result → IsTrue (fits_form_value plan.now.form neutral.now) }
{
    folds(plan.form.base, op) && fits_form(&plan.form, neutral)
}

fn folds(base: Base, op: Op) -> bool
    ensures { result ≡ folds_value base op }
{
    match base {
        Base::Int => matches!(op, Op::Add | Op::Mul | Op::Min | Op::Max),
        Base::Bool => matches!(op, Op::And | Op::Or),
    }
}

/// The cells of a loop combined, beginning with a neutral value that has their form, where the cells stand alone where these
/// variables are read.
pub fn fold_by_workers<'a, G: Gate, R: Threads + Sync>(
    workers: &Workers<'_, '_, G, R>,
    work: &CellLoop<'a>,
    op: Op,
    neutral: Array,
    live: &[Var],
    context: &Context<'a>,
    state: &mut State<'_, '_>,
) -> Result<RunValue, Stop>
    requires apart { StandsApart context.now state.old work.now.source live.now }
    requires op { IsTrue (folds_value work.now.plan.now.form.base op) }
    requires form { IsTrue (fits_form_value work.now.plan.now.form neutral) }
    ensures told { (m : MachineHeap) → IsAt state.old m
        → Told IsValue result state.new
        (job_does None (cells_job context.now (current state.old.frames) m work.now true (fold (combined op) neutral)) m) }
    ensures scopes { OnOk result (SameScopes state.old.frames state.new.frames) }
    ensures lender { lender_of state.new.heap ≡ lender_of state.old.heap }
{
    let plan = work.plan;
    let _code = context.code.get();
    let _cells = neutral.cells();
    let value = neutral.into_cells();
    let positions = plan.frame.count();
    let mut begun = begin_phase(context.alloc, &plan.shape, positions, state)?;
    begun.target.cells = value;
    state.heap.own.buffers_are_numbered();
    let end = fold_in(workers, *work, op, live, *context, state, &mut begun);
    let Begun { target, books } = begun;
    match end {
        Ok(_) => {
            end_phase(books, state);
            finish_phase(target, plan.form.base, &plan.form.shape, state)
        }
        Err(Stop::Faulted(fault)) => {
            stop_phase(books, state);
            Err(Stop::Faulted(fault))
        }
        Err(Stop::Memory) => Err(Stop::Memory),
    }
}

// Combines what stands in the place of the result of a phase that has begun with the cells of all indices that have one.
fn fold_in<'a, G: Gate, R: Threads + Sync>(
    workers: &Workers<'_, '_, G, R>,
    work: CellLoop<'a>,
    op: Op,
    live: &'a [Var],
    context: Context<'a>,
    state: &'a State<'_, '_>,
    begun: &mut Begun,
) -> Result<(), Stop>
    requires counted { SourceIn (code_program context.code.now) work.source live.now }
    requires alive { AreAlive state.now.heap.own (current state.now.frames) live.now }
    requires op { IsTrue (folds_value work.plan.now.form.base op) }
    requires width { length begun.old.target.cells.items ≡ size work.plan.now.form.shape }
    requires home { begun.old.books.home ≡ new_behind state.now.heap.own }
    ensures booked { IsBooked (length work.entry.plan.now.frame) begun.old.books begun.new.books result }
    ensures combined { let loop = work.entry in
        let n = length loop.plan.now.frame in
        CombinesAll op (cells_from (source_cell context.entry state.now.heap.own (current state.now.frames) loop.source loop.plan.now None) 0 n)
        state.now.heap.own (cost_from (source_taken context.entry state.now.heap.own (current state.now.frames) loop.source loop.plan.now) 0 n)
        begun.old.target.cells.items begun.new.target.cells.items (left_in begun.new.books.home result) }
    ensures buffer { begun.new.target.buffer ≡ begun.old.target.buffer }
{
    let cells = KernelCells {
        cells: LoopCells {
            context,
            heap: &state.heap.own,
            frames: &state.frames,
            source: work.source,
            plan: work.plan,
            background: None,
        },
        live,
    };
    fold_cells(
        workers,
        &cells,
        op,
        &mut begun.target.cells,
        &mut begun.books,
    )
}

// Combines a value with the cells of all indices that have one.
fn fold_cells<G: Gate, R: Threads + Sync>(
    workers: &Workers<'_, '_, G, R>,
    cells: &KernelCells<'_>,
    op: Op,
    value: &mut [Cell],
    books: &mut Books,
) -> Result<(), Stop>
    requires counted { SourceIn (code_program cells.now.cells.context.code.now) cells.now.cells.source cells.now.live.now }
    requires alive { AreAlive cells.now.cells.heap.now (current cells.now.cells.frames.now) cells.now.live.now }
    requires op { IsTrue (folds_value cells.now.cells.plan.now.form.base op) }
    requires width { length value.old ≡ size cells.now.cells.plan.now.form.shape }
    requires home { books.old.home ≡ new_behind cells.now.cells.heap.now }
    ensures booked { IsBooked (length cells.now.cells.plan.now.frame) books.old books.new result }
    ensures combined { CombinesAll op (cells_from (cell_of cells.now) 0 (length cells.now.cells.plan.now.frame)) cells.now.cells.heap.now
        (cost_from (taken_of cells.now) 0 (length cells.now.cells.plan.now.frame)) value.old value.new (left_in books.new.home result) }
{
    let _code = cells.cells.context.code.get();
    cells.cells.heap.buffers_are_numbered();
    let count = cells.cells.plan.frame.count();
    if count > MOST {
        return Err(Stop::Memory);
    }
    each_fold(workers, cells, count, op, value, books)
}

// The same of so many positions.
fn each_fold<G: Gate, R: Threads + Sync>(
    workers: &Workers<'_, '_, G, R>,
    cells: &KernelCells<'_>,
    count: usize,
    op: Op,
    value: &mut [Cell],
    books: &mut Books,
) -> Result<(), Stop>
    requires positions { (count ≤ 16777216) × (count ≡ length cells.now.cells.plan.now.frame) }
    requires op { IsTrue (folds_value cells.now.cells.plan.now.form.base op) }
    requires lending { IsLending (OpenSource cells.now.cells.context cells.now.cells.heap.now
        (current cells.now.cells.frames.now) cells.now.cells.source) cells.now.cells.heap.now }
    requires width { length value.old ≡ size cells.now.cells.plan.now.form.shape }
    requires home { books.old.home ≡ new_behind cells.now.cells.heap.now }
    ensures booked { IsBooked count books.old books.new result }
    ensures combined { CombinesAll op (cells_from (cell_of cells.now) 0 count) cells.now.cells.heap.now
        (cost_from (taken_of cells.now) 0 count) value.old value.new (left_in books.new.home result) }
{
    shares::<CodePart>();
    shares::<CodeGen>();
    shares::<Code>();
    shares::<CallKernel>();
    shares::<Option<CellKernel>>();
    let base = cells.cells.plan.form.base;
    let kernels = PhaseKernels::of(*cells, workers.kernels);
    let team = team_for(workers, &kernels);
    compute_fold(&team, &kernels, count, base, op, value, books)
}

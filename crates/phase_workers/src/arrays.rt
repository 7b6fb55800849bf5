//! Arrays of cells that workers compute.

ghost use Rattle.std.specs.Prelude.{◌≡◌, ◌≢◌, ◌<◌, ℕ, None, Ok, OnOk, length};
ghost use Rattle.counted_code.specs.Loops.{job_does};
ghost use Rattle.counted_code.specs.Values.{Heap as MachineHeap};
ghost use Rattle.counted_code.specs.View.{code_program};
ghost use Rattle.phase_books.specs.Alive.{AreAlive};
ghost use Rattle.phase_books.specs.Homes.{ComputesAll, IsBooked, left_in, new_behind};
ghost use Rattle.phase_loop_cells.specs.Cells.{source_cell, source_taken};
ghost use Rattle.phase_loop_cells.specs.Opened.{SourceIn};
ghost use Rattle.phase_team.specs.Segments.{cells_from, cost_from};
ghost use Rattle.phase_workers.specs.Covered.{IfEnded};
ghost use Rattle.phase_workers.specs.Phases.{MakesLarge};
ghost use Rattle.phase_workers.specs.Sources.{StandsApart};
ghost use Rattle.run_loops.specs.Jobs.{job_of};
ghost use Rattle.run_loops.specs.Running.{IsAt, IsValue, SameScopes, Told};
ghost use Rattle.run_store.specs.Stands.{lender_of};
ghost use Rattle.run_values.specs.Scopes.{current};

use crate::backgrounds::{background_of, base_of, set_aside};
use crate::covered::all_cells;
use core_ir::Var;
use phase_books::{Begun, Workers, begin_phase, end_phase, finish_phase, stop_phase};
use phase_kernels::KernelCells;
use phase_loop_cells::{Background, LoopCells};
use phase_team::Gate;
use run_loops::{CellLoop, Context, State};
use run_values::RunValue;
use sac_base::{Stop, elements};
use std::thread::Threads;

/// The result of a loop that makes a large array, and whose cells stand alone where these variables are read. An old array is
/// read where it lies, beside the result.
pub fn array_by_workers<'a, G: Gate, R: Threads + Sync>(
    workers: &Workers<'_, '_, G, R>,
    work: &CellLoop<'a>,
    live: &[Var],
    context: &Context<'a>,
    state: &mut State<'_, '_>,
) -> Result<RunValue, Stop>
    requires apart { StandsApart context.now state.old work.now.source live.now }
    requires large { MakesLarge work.now.result work.now.plan.now }
    ensures told { (m : MachineHeap) → IsAt state.old m
        → Told IsValue result state.new (job_does None (job_of context.now (current state.old.frames) m work.now) m) }
    ensures scopes { OnOk result (SameScopes state.old.frames state.new.frames) }
    ensures lender { lender_of state.new.heap ≡ lender_of state.old.heap }
{
    let plan = work.plan;
    let Some(size) = elements(&plan.form.shape) else {
        return Err(Stop::Memory);
    };
    let _code = context.code.get();
    let aside = set_aside(context.alloc, work, &state.heap.own)?;
    let positions = plan.frame.count();
    let mut begun = begin_phase(context.alloc, &plan.shape, positions, state)?;
    state.heap.own.buffers_are_numbered();
    let background = background_of(work, size as usize, &aside, &state.heap.own);
    let end = array_cells(
        workers, *work, live, background, *context, state, &mut begun,
    );
    let Begun { target, books } = begun;
    match end {
        Ok(_) => {
            end_phase(books, state);
            finish_phase(target, base_of(work), &plan.shape, state)
        }
        Err(Stop::Faulted(fault)) => {
            stop_phase(books, state);
            Err(Stop::Faulted(fault))
        }
        Err(Stop::Memory) => Err(Stop::Memory),
    }
}

/// Computes the cells of all indices, each at its place in the result of a phase that has begun. Where it says anything, each
/// index has a cell, or something stands there.
pub fn array_cells<'a, G: Gate, R: Threads + Sync>(
    workers: &Workers<'_, '_, G, R>,
    work: CellLoop<'a>,
    live: &'a [Var],
    background: Option<Background<'a>>,
    context: Context<'a>,
    state: &'a State<'_, '_>,
    begun: &mut Begun,
) -> Result<(), Stop>
    requires counted { SourceIn (code_program context.code.now) work.source live.now }
    requires alive { AreAlive state.now.heap.own (current state.now.frames) live.now }
    requires home { begun.old.books.home ≡ new_behind state.now.heap.own }
    ensures booked { IsBooked (length work.entry.plan.now.frame) begun.old.books begun.new.books result }
    ensures computed { let loop = work.entry in
        let n = length loop.plan.now.frame in
        ComputesAll (cells_from (source_cell context.entry state.now.heap.own (current state.now.frames) loop.source loop.plan.now background.entry) 0 n)
        state.now.heap.own (cost_from (source_taken context.entry state.now.heap.own (current state.now.frames) loop.source loop.plan.now) 0 n)
        begun.new.target.cells.items (left_in begun.new.books.home result) }
    ensures there { let loop = work.entry in
        IfEnded result ((place : ℕ) → place < length loop.plan.now.frame
        → source_cell context.entry state.now.heap.own (current state.now.frames) loop.source loop.plan.now background.entry place ≢ Ok None) }
    ensures buffer { begun.new.target.buffer ≡ begun.old.target.buffer }
{
    let cells = KernelCells {
        cells: LoopCells {
            context,
            heap: &state.heap.own,
            frames: &state.frames,
            source: work.source,
            plan: work.plan,
            background,
        },
        live,
    };
    all_cells(workers, &cells, &mut begun.target.cells, &mut begun.books)
}

//! Parted loops over the array of a marked variable, of cells that workers compute.

ghost use Rattle.std.specs.Prelude.{◌≡◌, None, Some, IfOk, IsTrue, OnOk, false, true};
ghost use Rattle.counted_code.specs.Loops.{job_does};
ghost use Rattle.counted_code.specs.Values.{Heap as MachineHeap, is_small as is_small_shape};
ghost use Rattle.counted_code.specs.View.{code_program};
ghost use Rattle.phase_kernels.specs.over_checks.Over.{MayBeOver};
ghost use Rattle.phase_books.specs.Alive.{AreAlive};
ghost use Rattle.counted_code.specs.Pieces.{parts_term};
ghost use Rattle.phase_loop_cells.specs.Opened.{PartsIn};
ghost use Rattle.run_loops.specs.Jobs.{over_does, AreIndicesOf, IsOver};
ghost use Rattle.run_loops.specs.Running.{IsAt, IsValue, SameScopes, Told, parts_job};
ghost use Rattle.run_over.specs.Soles.{is_only};
ghost use Rattle.run_store.specs.Stands.{lender_of};
ghost use Rattle.run_values.specs.Scopes.{current};
ghost use Rattle.run_values.specs.Shown.{value_of};

use crate::arrays::array_cells;
use crate::sources::live_apart;
use array_with_loops::Plan;
use core_ir::Var;
use counted_code::CodePart;
use kept_kernels::LoopTable;
use phase_books::{Begun, Workers, end_phase, open_books, settle_over, stop_phase};
use phase_kernels::KernelCells;
use phase_kernels::over_checks::may_be_over;
use phase_loop_cells::LoopCells;
use phase_loop_laws::over_phases::phases_end_over;
use phase_team::Gate;
use run_eval::run_over_in_order;
use run_loops::{CellLoop, CellSource, Context, LoopResult, State};
use run_over::claim_over;
use run_store::Target;
use run_values::RunValue;
use sac_base::{Memory, Stop};
use std::thread::Threads;

/// The result of an array of the cells alone, over that of a value which is the only reference to its buffer. It is run by the
/// workers where its cells are known to stand alone and to read of the array the element at their own index alone, and none nests too
/// deep, and else in order.
pub fn over_outside<G: Gate, R: Threads + Sync>(
    workers: &Workers<'_, '_, G, R>,
    work: &CellLoop<'_>,
    array: RunValue,
    context: &Context<'_>,
    state: &mut State<'_, '_>,
) -> Result<RunValue, Stop>
    ensures told { (m : MachineHeap) → IsAt state.old m → IsOver work.now (value_of array) m
        → Told IsValue result state.new (over_does context.now (current state.old.frames) work.now (value_of array) m) }
    ensures scopes { OnOk result (SameScopes state.old.frames state.new.frames) }
    ensures lender { lender_of state.new.heap ≡ lender_of state.old.heap }
{
    let CellSource::Parts(parts) = work.source else {
        return run_over_in_order(work, array, context, state);
    };
    let source = CellSource::Parts(parts);
    let positions = work.plan.frame.count();
    let Some(live) = live_apart(workers, &source, positions, context, state)? else {
        return run_over_in_order(work, array, context, state);
    };
    if !is_phase_over(
        workers.kernels,
        parts,
        work.plan,
        array,
        &live,
        *context,
        state,
    )? {
        return run_over_in_order(work, array, context, state);
    }
    over_by_workers(workers, parts, work.plan, array, &live, context, state)
}

// Whether all cells may be computed before one of them is written over the array.
fn is_phase_over<'a>(
    table: &LoopTable<'_>,
    parts: &'a [CodePart],
    plan: &'a Plan,
    array: RunValue,
    live: &'a [Var],
    context: Context<'a>,
    state: &'a State<'_, '_>,
) -> Result<bool, Memory>
    ensures { IfOk result (λ over. IsTrue over →
        MayBeOver context.entry state.now.heap.own (current state.now.frames) parts.now plan.now.form plan.now.shape live.now (value_of array)) }
{
    let cells = KernelCells {
        cells: LoopCells {
            context,
            heap: &state.heap.own,
            frames: &state.frames,
            source: CellSource::Parts(parts),
            plan,
            background: None,
        },
        live,
    };
    may_be_over(&cells, table, &plan.shape, array)
}

// The same of a loop that is a phase: the cells are computed from what stands in the array, and then written over it.
fn over_by_workers<'a, G: Gate, R: Threads + Sync>(
    workers: &Workers<'_, '_, G, R>,
    parts: &'a [CodePart],
    plan: &'a Plan,
    array: RunValue,
    live: &[Var],
    context: &Context<'_>,
    state: &mut State<'_, '_>,
) -> Result<RunValue, Stop>
    requires counted { PartsIn (code_program context.now.code.now) (parts_term parts.now) live.now }
    requires alive { AreAlive state.old.heap.own (current state.old.frames) live.now }
    requires alone { state.old.heap.lent ≡ None }
    requires over { MayBeOver context.now state.old.heap.own (current state.old.frames) parts.now plan.now.form plan.now.shape live.now (value_of array) }
    ensures told { (m : MachineHeap) → IsAt state.old m → is_small_shape plan.now.shape ≡ false → is_only m (value_of array) ≡ true
        → AreIndicesOf plan.now.shape plan.now.frame
        → Told IsValue result state.new (job_does (Some (value_of array))
        (parts_job context.now (current state.old.frames) parts.now plan.now.frame plan.now.form plan.now.shape) m) }
    ensures scopes { OnOk result (SameScopes state.old.frames state.new.frames) }
    ensures lender { lender_of state.new.heap ≡ lender_of state.old.heap }
{
    let RunValue::Buffer(_, buffer, extents) = array else {
        return Err(Stop::Memory);
    };
    let _code = context.code.get();
    state.heap.own.buffers_are_numbered();
    phases_end_over();
    let positions = plan.frame.count();
    let books = open_books(&mut state.phases, &state.heap.own, positions)?;
    let cells = state.heap.own.take_spare(positions)?;
    let target = Target {
        cells,
        buffer: None,
    };
    let mut begun = Begun { target, books };
    let work = CellLoop {
        source: CellSource::Parts(parts),
        plan,
        result: LoopResult::Joined,
    };
    let end = array_cells(workers, work, live, None, *context, state, &mut begun);
    let Begun { target, books } = begun;
    let Target { cells, buffer: _ } = target;
    match end {
        Ok(_) => {
            end_phase(books, state);
            settle_over(&mut state.heap, buffer, cells)?;
            Ok(RunValue::Buffer(plan.form.base, buffer, extents))
        }
        Err(Stop::Faulted(fault)) => {
            claim_over(&mut state.heap, buffer)?;
            stop_phase(books, state);
            Err(Stop::Faulted(fault))
        }
        Err(Stop::Memory) => Err(Stop::Memory),
    }
}

//! A whole program, with its phases run by workers.

ghost use Rattle.std.specs.Prelude.{◌≡◌, ◌≤◌, length};
ghost use Rattle.lane_ops.specs.Lanes.{lane, IsEach};
ghost use Rattle.sac_base.specs.Verdict.{fold_op};
ghost use Rattle.counted_code.specs.Counts.{IsWellCounted};
ghost use Rattle.counted_code.specs.Outcome.{cost_of, outcome_of, whole_run};
ghost use Rattle.counted_code.specs.View.{code_program};
ghost use Rattle.counted_marks.specs.Marks.{IsWellMarked};
ghost use Rattle.phase_books.specs.Calls.{IsRun, IsRunOver};
ghost use Rattle.run_loops.specs.Jobs.{job_of};
ghost use Rattle.run_eval.specs.Outcomes.{new_heap, IsCleared, HasCounters, KeepsChanges, TellsCost, TellsTally, draws_under};
ghost use Rattle.array_ops.specs.Tells.{TellsItems};

use crate::outside::loop_outside;
use crate::over::over_outside;
use crate::strips::{both_outside, right_outside};
use buffer_heap::Heap;
use counted_code::Code;
use kept_kernels::LoopTable;
use phase_books::{LoopCall, Nesting, Workers};
use phase_team::Gate;
use run_eval::{Plan, Trace, run_with_phases};
use run_loops::{CellLoop, Context, State};
use run_values::RunValue;
use sac_base::{Array, Cell, Op, Stop};
use std::alloc::Global;
use std::thread::Threads;

/// Runs counted code on arguments, and its phases by as many workers as the plan has, which share operators of large arrays as well.
/// The results are those of its main function, or there is the first fault, whatever the workers do first.
///
/// After every answer, want of memory included, no buffer of the heap is live, and as many were given back as were taken.
pub fn run<G: Gate, R: Threads + Sync>(
    rt: &R,
    alloc: Global,
    code: &Code,
    args: Vec<Array>,
    heap: &mut Heap,
    plan: Plan,
    gate: &G,
    trace: &mut Trace,
) -> Result<Vec<Array>, Stop>
    requires workers { (1 ≤ plan.workers) × (plan.workers ≤ 64) }
    requires counted { IsWellCounted (code_program code.now) }
    requires marked { IsWellMarked (code_program code.now) }
    requires new { heap.old ≡ new_heap }
    ensures outcome { TellsItems result (outcome_of (whole_run (code_program code.now) args.items plan.caps)) }
    ensures cleared { IsCleared heap.new }
    ensures cost { TellsCost result trace.new (cost_of (whole_run (code_program code.now) args.items plan.caps)) }
    ensures tally { TellsTally result trace.old.tally trace.new.tally (cost_of (whole_run (code_program code.now) args.items plan.caps))
        (draws_under plan (whole_run (code_program code.now) args.items plan.caps)) }
    ensures counters { HasCounters trace.new heap.new }
    ensures kept { KeepsChanges trace.old trace.new }
{
    let nesting = Nesting::of(alloc, code, plan.caps.depth, plan.workers);
    let kernels = LoopTable::of(alloc, code);
    let workers = Workers {
        alloc,
        rt,
        gate,
        workers: plan.workers,
        chunked: plan.chunk.is_some(),
        nesting: &nesting,
        kernels: &kernels,
    };
    let calls = LoopCall {
        run: |work: &CellLoop<'_>, context: &Context<'_>, state: &mut State<'_, '_>| -> Result<
            RunValue,
            Stop,
        >
            ensures { IsRun (λ e m. job_of context.now e m work.now) state.old result state.new }
        { loop_outside(&workers, work, context, state) },
        over: |work: &CellLoop<'_>, array: RunValue, context: &Context<'_>, state: &mut State<
            '_,
            '_,
        >| -> Result<RunValue, Stop>
            ensures { IsRunOver context.now work.now array state.old result state.new }
        { over_outside(&workers, work, array, context, state) },
        both: |op: Op, first: &[Cell], second: &[Cell], target: &mut [Cell]|
            requires { (length first.now ≡ length target.old) × (length second.now ≡ length target.old) }
            ensures { IsEach target.new (λ k. fold_op op (lane first.now k) (lane second.now k)) }
        { both_outside(&workers, op, first, second, target) },
        right: |op: Op, first: &[Cell], number: Cell, target: &mut [Cell]|
            requires { length first.now ≡ length target.old }
            ensures { IsEach target.new (λ k. fold_op op (lane first.now k) number) }
        { right_outside(&workers, op, first, number, target) },
    };
    run_with_phases(alloc, code, args, heap, plan, calls, trace)
}

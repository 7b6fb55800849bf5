//! Loops over cells that stand outside of cells.

ghost use Rattle.std.specs.Prelude.{◌≡◌, None, IsTrue, OnOk};
ghost use Rattle.counted_code.specs.Loops.{job_does};
ghost use Rattle.counted_code.specs.Values.{Heap as MachineHeap};
ghost use Rattle.phase_workers.specs.Phases.{MakesLarge};
ghost use Rattle.run_loops.specs.Jobs.{job_of};
ghost use Rattle.run_loops.specs.Running.{IsAt, IsValue, SameScopes, Told};
ghost use Rattle.run_loops.specs.declared.cell_loop.LoopResult.TheVariants.{Folded};
ghost use Rattle.run_store.specs.Stands.{lender_of};
ghost use Rattle.run_values.specs.Scopes.{current};

use crate::arrays::array_by_workers;
use crate::folds::{fold_by_workers, is_fold};
use crate::sources::live_apart;
use phase_books::Workers;
use phase_team::Gate;
use run_eval::run_in_order;
use run_loops::{CellLoop, Context, LoopResult, State};
use run_store::is_small;
use run_values::RunValue;
use sac_base::{Array, Op, Stop, copy_array};
use std::thread::Threads;

/// The result of a loop whose checks have passed. It is run by the workers where it is a phase, its cells are not few and short and are known to
/// stand alone, which cells that reach a mark do not, and none nests too deep, and else in order.
pub fn loop_outside<'a, G: Gate, R: Threads + Sync>(
    workers: &Workers<'_, '_, G, R>,
    work: &CellLoop<'a>,
    context: &Context<'a>,
    state: &mut State<'_, '_>,
) -> Result<RunValue, Stop>
    ensures told { (m : MachineHeap) → IsAt state.old m
        → Told IsValue result state.new (job_does None (job_of context.now (current state.old.frames) m work.now) m) }
    ensures scopes { OnOk result (SameScopes state.old.frames state.new.frames) }
    ensures lender { lender_of state.new.heap ≡ lender_of state.old.heap }
{
    match work.result {
        LoopResult::Folded { op, neutral } => {
            fold_outside(workers, work, op, neutral, context, state)
        }
        _ => array_outside(workers, work, context, state),
    }
}

// The same of one that makes an array.
fn array_outside<'a, G: Gate, R: Threads + Sync>(
    workers: &Workers<'_, '_, G, R>,
    work: &CellLoop<'a>,
    context: &Context<'a>,
    state: &mut State<'_, '_>,
) -> Result<RunValue, Stop>
    ensures told { (m : MachineHeap) → IsAt state.old m
        → Told IsValue result state.new (job_does None (job_of context.now (current state.old.frames) m work.now) m) }
    ensures scopes { OnOk result (SameScopes state.old.frames state.new.frames) }
    ensures lender { lender_of state.new.heap ≡ lender_of state.old.heap }
{
    if !makes_large(work) {
        return run_in_order(work, context, state);
    }
    let positions = work.plan.frame.count();
    let Some(live) = live_apart(workers, &work.source, positions, context, state)? else {
        return run_in_order(work, context, state);
    };
    array_by_workers(workers, work, &live, context, state)
}

// Whether an array is made that is no small one.
fn makes_large(work: &CellLoop<'_>) -> bool
    ensures { IsTrue result → MakesLarge work.now.result work.now.plan.now }
{
    match work.result {
        LoopResult::Filled { .. } | LoopResult::Joined => !is_small(&work.plan.shape),
        LoopResult::Folded { .. } => false,
    }
}

// The same of a fold.
fn fold_outside<'a, G: Gate, R: Threads + Sync>(
    workers: &Workers<'_, '_, G, R>,
    work: &CellLoop<'a>,
    op: Op,
    neutral: &Array,
    context: &Context<'a>,
    state: &mut State<'_, '_>,
) -> Result<RunValue, Stop>
    requires { work.now.result ≡ Folded op neutral }
    ensures told { (m : MachineHeap) → IsAt state.old m
        → Told IsValue result state.new (job_does None (job_of context.now (current state.old.frames) m work.now) m) }
    ensures scopes { OnOk result (SameScopes state.old.frames state.new.frames) }
    ensures lender { lender_of state.new.heap ≡ lender_of state.old.heap }
{
    if !is_fold(work.plan, op, neutral) {
        return run_in_order(work, context, state);
    }
    let positions = work.plan.frame.count();
    let Some(live) = live_apart(workers, &work.source, positions, context, state)? else {
        return run_in_order(work, context, state);
    };
    let neutral = copy_array(neutral)?;
    fold_by_workers(workers, work, op, neutral, &live, context, state)
}

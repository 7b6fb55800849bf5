//! Loops whose cells stand alone, and are worth a phase.

ghost use Rattle.std.specs.Prelude.{IfOk, IfSome, IsTrue};
ghost use Rattle.counted_code.specs.View.{code_program};
ghost use Rattle.phase_workers.specs.Sources.{IsClear, IsCounted, StandsApart};

use core_ir::Var;
use phase_books::{Workers, alive_in, has_room_for, steps_of};
use phase_checks::{gens_are_counted, parts_are_counted};
use phase_team::Gate;
use run_loops::{CellSource, Context, State};
use sac_base::Memory;
use std::thread::Threads;

/// The most steps of the evaluator in which the cells of a loop are computed in order sooner than a phase begins (`docs/DECISIONS.md`).
const FEW: u64 = 128;

/// The variables that the cells of a source read, where the cells at so many positions are worth a phase and known to stand alone, which those
/// that reach a mark do not, and none nests too deep for a worker's stack. None where that is not known, where the cells are few and short and no
/// size of chunks was given, or where this thread is a worker itself.
pub fn live_apart<G: Gate, R: Threads + Sync>(
    workers: &Workers<'_, '_, G, R>,
    source: &CellSource<'_>,
    positions: usize,
    context: &Context<'_>,
    state: &State<'_, '_>,
) -> Result<Option<Vec<Var>>, Memory>
    ensures { IfOk result (λ found. IfSome found (λ live. StandsApart context.now state.now source.now live.items)) }
{
    if state.heap.lent.is_some()
        || !has_room_for(workers.nesting, source, context.code.get())
        || !is_clear(source, context)
    {
        return Ok(None);
    }
    let live = alive_in(context.alloc, source, &state.frames, &state.heap.own)?;
    let steps = steps_of(source, &live, &state.frames);
    let are_few = !workers.chunked && (positions as u64).saturating_mul(steps) <= FEW;
    if are_few || !is_counted(source, &live, context)? {
        return Ok(None);
    }
    Ok(Some(live))
}

// Whether the cells were seen to reach no mark.
fn is_clear(source: &CellSource<'_>, context: &Context<'_>) -> bool
    ensures { IsTrue result → IsClear (code_program context.now.code.now) source.now }
{
    match source {
        CellSource::Generators(gens) => context.code.gens_reach_none(gens),
        CellSource::Parts(parts) => context.code.parts_reach_none(parts),
    }
}

// Whether the cells are well counted where these variables alone are there.
fn is_counted(source: &CellSource<'_>, live: &[Var], context: &Context<'_>) -> Result<bool, Memory>
    ensures { IfOk result (λ counted. IsTrue counted → IsCounted (code_program context.now.code.now) source.now live.now) }
{
    let code = context.code.get();
    match source {
        CellSource::Generators(gens) => {
            let counted = gens_are_counted(context.alloc, code, live, gens)?;
            Ok(counted)
        }
        CellSource::Parts(parts) => {
            let counted = parts_are_counted(context.alloc, code, live, parts)?;
            Ok(counted)
        }
    }
}

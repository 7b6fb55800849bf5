//! Parted loops that write their result over the array of the marked variable.

ghost use Rattle.counted_code.specs.Loops.{Old, count_phase, job_does, release_rest, write_cell};
ghost use Rattle.counted_code.specs.Values.{Heap as MachineHeap, count_of, is_small as is_small_shape, read};
ghost use Rattle.counted_code.specs.View.{code_parted_term};
ghost use Rattle.run_loops.specs.Jobs.{job_of, over_does, AreIndicesOf, IsOver};
ghost use Rattle.run_loops.specs.Loops.{cells_written};
ghost use Rattle.run_loops.specs.Running.{right_in, IsAt, Told, IsOnly, IsValue, SameScopes};
ghost use Rattle.run_over.specs.Soles.{is_only};
ghost use Rattle.run_store.specs.Stands.{Stands, lender_of};
ghost use Rattle.run_values.specs.Numbers.{numbers};
ghost use Rattle.run_values.specs.Scopes.{current};
ghost use Rattle.run_values.specs.Shown.{value_of};
ghost use Rattle.std.specs.Prelude.{◌≡◌, ◌+◌, ◌&&◌, ℕ, false, true, map, not, option_map, unsigned_abs, IfOk, IsTrue, OnOk};

use crate::array_loops::{loop_cell, run_cell_loop};
use array_with_loops::IndexVector;
use buffer_heap::BufferId;
use core_ir::PartedOp;
use counted_code::CodeParted;
use run_loops::{
    CellLoop, CellSource, Context, LoopResult, Outside, Phases, State, begin_in_place, has_shape,
    is_in_order, is_written_over, parted_plan, put_in_place,
};
use run_store::release;
use run_values::RunValue;
use sac_base::{Site, Stop};

/// The result of a marked loop. A loop without a mark and a fold, which well-marked code has none of, count as want of
/// memory.
#[cycle(run)]
pub fn run_marked<P: Phases>(
    parted: &CodeParted,
    site: Site,
    context: &Context<'_>,
    outside: Option<&Outside<P>>,
    state: &mut State<'_, '_>,
) -> Result<RunValue, Stop>
    ensures told { (m : MachineHeap) → IsAt state.old m
        → Told IsOnly result state.new (right_in context.now (code_parted_term parted.now) site (current state.old.frames) m) }
    ensures scopes { OnOk result (SameScopes state.old.frames state.new.frames) }
    ensures lender { lender_of state.new.heap ≡ lender_of state.old.heap }
{
    let Some(mark) = parted.reuse else {
        return Err(Stop::Memory);
    };
    if let PartedOp::Fold { .. } = parted.op {
        return Err(Stop::Memory);
    }
    let plan = parted_plan(
        context.alloc,
        &parted.frame,
        parted.base,
        &parted.cell,
        parted.op,
    )?;
    let source = CellSource::Parts(&parted.parts);
    let result = LoopResult::Joined;
    let work = CellLoop {
        source,
        plan: &plan,
        result,
    };
    let array = state.frames.get(mark);
    let in_order = is_in_order(&parted.frame, &parted.cell);
    run_marked_loop(&work, array, in_order, context, outside, state)
}

/// The result of a loop with a mark, whose checks have passed. The marked variable's reference ends with the loop.
#[cycle(run)]
fn run_marked_loop<P: Phases>(
    work: &CellLoop<'_>,
    array: RunValue,
    in_order: bool,
    context: &Context<'_>,
    outside: Option<&Outside<P>>,
    state: &mut State<'_, '_>,
) -> Result<RunValue, Stop>
    ensures told { (m : MachineHeap) → IsAt state.old m → (IsTrue in_order → AreIndicesOf work.now.plan.now.shape work.now.plan.now.frame)
        → Told IsValue result state.new (job_does (Some (value_of array)) (job_of context.now (current state.old.frames) m work.now) m) }
    ensures scopes { OnOk result (SameScopes state.old.frames state.new.frames) }
    ensures lender { lender_of state.new.heap ≡ lender_of state.old.heap }
{
    let over = is_written_over(&state.heap, &work.plan.shape, &array)?;
    if !over {
        let value = run_cell_loop(work, context, outside, state)?;
        release(&mut state.heap, array)?;
        return Ok(value);
    }
    match work.result {
        LoopResult::Joined => {
            if in_order {
                run_over(work, array, context, outside, state)
            } else {
                run_in_place(work, array, context, outside, state)
            }
        }
        _ => Err(Stop::Memory),
    }
}

/// An array of the cells alone, over that of a value which is the only reference to its buffer.
#[cycle(run)]
pub fn run_over<P: Phases>(
    work: &CellLoop<'_>,
    array: RunValue,
    context: &Context<'_>,
    outside: Option<&Outside<P>>,
    state: &mut State<'_, '_>,
) -> Result<RunValue, Stop>
    ensures told { (m : MachineHeap) → IsAt state.old m → IsOver work.now (value_of array) m
        → Told IsValue result state.new (over_does context.now (current state.old.frames) work.now (value_of array) m) }
    ensures scopes { OnOk result (SameScopes state.old.frames state.new.frames) }
    ensures lender { lender_of state.new.heap ≡ lender_of state.old.heap }
{
    if let Some(phases) = outside {
        return phases.run_over(work, array, context, state);
    }
    run_in_place(work, array, context, outside, state)
}

/// The same on this thread, each cell written before the next one is computed.
#[cycle(run)]
fn run_in_place<P: Phases>(
    work: &CellLoop<'_>,
    array: RunValue,
    context: &Context<'_>,
    outside: Option<&Outside<P>>,
    state: &mut State<'_, '_>,
) -> Result<RunValue, Stop>
    ensures told { (m : MachineHeap) → IsAt state.old m → is_small_shape work.now.plan.now.shape ≡ false → is_only m (value_of array) ≡ true
        → Told IsValue result state.new (over_does context.now (current state.old.frames) work.now (value_of array) m) }
    ensures scopes { OnOk result (SameScopes state.old.frames state.new.frames) }
    ensures lender { lender_of state.new.heap ≡ lender_of state.old.heap }
{
    let RunValue::Buffer(_, buffer, extents) = array else {
        return Err(Stop::Memory);
    };
    if !has_shape(&extents, &work.plan.shape) {
        return Err(Stop::Memory);
    }
    begin_in_place(work.plan.frame.count(), buffer, context, state)?;
    fill_in_place(work, buffer, context, outside, state)?;
    Ok(RunValue::Buffer(work.plan.form.base, buffer, extents))
}

/// Writes the cells of all indices into a buffer, each before the next one is computed.
#[cycle(run)]
fn fill_in_place<P: Phases>(
    work: &CellLoop<'_>,
    buffer: BufferId,
    context: &Context<'_>,
    outside: Option<&Outside<P>>,
    state: &mut State<'_, '_>,
) -> Result<(), Stop>
    ensures told { (m : MachineHeap) → IsAt state.old m
        → Told (λ _ found. Unit {0}) result state.new (cells_written buffer.born context.now (current state.old.frames) work.now m) }
    ensures scopes { OnOk result (SameScopes state.old.frames state.new.frames) }
    ensures lender { lender_of state.new.heap ≡ lender_of state.old.heap }
{
    let mut index = IndexVector::new(context.alloc);
    for place in 0..work.plan.frame.count() {
        work.plan.frame.index(place, &mut index)?;
        let value = loop_cell(
            &work.source,
            &work.plan.ranges,
            &work.plan.form,
            index.components(),
            context,
            outside,
            state,
        )?;
        put_in_place(&mut state.heap, value, buffer, place)?;
    }
    Ok(())
}

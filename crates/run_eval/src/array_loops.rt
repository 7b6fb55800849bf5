//! With-loops and parted loops.

ghost use Rattle.counted_code.specs.Loops.{job_does};
ghost use Rattle.counted_code.specs.Values.{Heap as MachineHeap};
ghost use Rattle.counted_code.specs.View.{code_with_term, code_parted_term};
ghost use Rattle.run_loops.specs.Jobs.{array_over, cells_job, cells_over, job_of};
ghost use Rattle.run_loops.specs.Loops.{IsPresent, array_of, body_cell, body_of, loop_cells, source_at, unreleased};
ghost use Rattle.run_loops.specs.Running.{right_in, IsAt, Told, IsValue, IsOnly, SameScopes};
ghost use Rattle.run_store.specs.Stands.{lender_of};
ghost use Rattle.run_values.specs.Scopes.{current};
ghost use Rattle.sac_base.specs.WithLoops.{combined};
ghost use Rattle.std.specs.Prelude.{◌≡◌, ◌++◌, true, false, None, OnOk, fold};

use crate::blocks::run_first;
use crate::marked_loops::run_marked;
use array_with_loops::{IndexVector, Range, fold_plan, genarray_plan, modarray_plan_of};
use core_ir::{CoreOp, PartedOp};
use counted_code::{CodeParted, CodeWith};
use run_loops::{
    Background, CellBody, CellLoop, CellSource, Context, LoopResult, Outside, Phases, State, Sum,
    add_cell, all_bounds, begin, begin_fold, bind_index, body_at, count_elements, finish,
    finish_fold, formed, parted_plan, put_cell, read_shape, start,
};
use run_store::{fits, read_array};
use run_values::RunValue;
use sac_base::{Array, Base, Cell, FaultKind, Form, Op, Site, Stop, fault};

/// The result of a with-loop.
#[cycle(run)]
#[inline(never)]
pub fn run_with<P: Phases>(
    with: &CodeWith,
    site: Site,
    context: &Context<'_>,
    outside: Option<&Outside<P>>,
    state: &mut State<'_, '_>,
) -> Result<RunValue, Stop>
    ensures told { (m : MachineHeap) → IsAt state.old m
        → Told IsOnly result state.new (right_in context.now (code_with_term with.now) site (current state.old.frames) m) }
    ensures scopes { OnOk result (SameScopes state.old.frames state.new.frames) }
    ensures lender { lender_of state.new.heap ≡ lender_of state.old.heap }
{
    let alloc = context.alloc;
    let bounds = all_bounds(&with.gens, context, state)?;
    let source = CellSource::Generators(&with.gens);
    match with.op {
        CoreOp::Genarray { shape, default } => {
            let shape = read_array(alloc, &state.heap, state.frames.get(shape))?;
            let array = state.frames.get(default);
            let default = read_array(alloc, &state.heap, array)?;
            let plan = genarray_plan(alloc, &bounds, &shape, &default, site)?;
            let result = LoopResult::Filled { array, old: false };
            let work = CellLoop {
                source,
                plan: &plan,
                result,
            };
            run_cell_loop(&work, context, outside, state)
        }
        CoreOp::Modarray { array } => {
            let array = state.frames.get(array);
            let shape = read_shape(alloc, &state.heap, &array)?;
            let plan = modarray_plan_of(alloc, &bounds, array.base(), &shape, site)?;
            let result = LoopResult::Filled { array, old: true };
            let work = CellLoop {
                source,
                plan: &plan,
                result,
            };
            run_cell_loop(&work, context, outside, state)
        }
        CoreOp::Fold { op, neutral } => {
            let neutral = read_array(alloc, &state.heap, state.frames.get(neutral))?;
            let plan = fold_plan(alloc, &bounds, &neutral, site)?;
            let result = LoopResult::Folded {
                op,
                neutral: &neutral,
            };
            let work = CellLoop {
                source,
                plan: &plan,
                result,
            };
            run_cell_loop(&work, context, outside, state)
        }
    }
}

/// The result of a parted loop.
#[cycle(run)]
#[inline(never)]
pub fn run_parted<P: Phases>(
    parted: &CodeParted,
    site: Site,
    context: &Context<'_>,
    outside: Option<&Outside<P>>,
    state: &mut State<'_, '_>,
) -> Result<RunValue, Stop>
    ensures told { (m : MachineHeap) → IsAt state.old m
        → Told IsOnly result state.new (right_in context.now (code_parted_term parted.now) site (current state.old.frames) m) }
    ensures scopes { OnOk result (SameScopes state.old.frames state.new.frames) }
    ensures lender { lender_of state.new.heap ≡ lender_of state.old.heap }
{
    if parted.reuse.is_some() {
        return run_marked(parted, site, context, outside, state);
    }
    let alloc = context.alloc;
    let plan = parted_plan(alloc, &parted.frame, parted.base, &parted.cell, parted.op)?;
    let source = CellSource::Parts(&parted.parts);
    match parted.op {
        PartedOp::Fold { op, neutral } => {
            let neutral = state.frames.get(neutral);
            if !fits(&plan.form, &neutral) {
                return Err(fault(FaultKind::F6, site));
            }
            let neutral = read_array(alloc, &state.heap, neutral)?;
            let result = LoopResult::Folded {
                op,
                neutral: &neutral,
            };
            let work = CellLoop {
                source,
                plan: &plan,
                result,
            };
            run_cell_loop(&work, context, outside, state)
        }
        _ => {
            let result = LoopResult::Joined;
            let work = CellLoop {
                source,
                plan: &plan,
                result,
            };
            run_cell_loop(&work, context, outside, state)
        }
    }
}

/// The result of a loop whose checks have passed.
#[cycle(run)]
#[inline(never)]
pub fn run_cell_loop<P: Phases>(
    work: &CellLoop<'_>,
    context: &Context<'_>,
    outside: Option<&Outside<P>>,
    state: &mut State<'_, '_>,
) -> Result<RunValue, Stop>
    ensures told { (m : MachineHeap) → IsAt state.old m
        → Told IsValue result state.new (job_does None (job_of context.now (current state.old.frames) m work.now) m) }
    ensures scopes { OnOk result (SameScopes state.old.frames state.new.frames) }
    ensures lender { lender_of state.new.heap ≡ lender_of state.old.heap }
{
    if let Some(phases) = outside {
        return phases.run(work, context, state);
    }
    match work.result {
        LoopResult::Filled { array, old } => {
            let array = read_array(context.alloc, &state.heap, array)?;
            let size = count_elements(&work.plan.form.shape)?;
            let background = Some(Background {
                array: &array,
                old,
                size,
            });
            run_array(work, array.base(), background, context, outside, state)
        }
        LoopResult::Joined => {
            run_array(work, work.plan.form.base, None, context, outside, state)
        }
        LoopResult::Folded { op, neutral } => run_fold(work, op, neutral, context, outside, state),
    }
}

/// An array of the cells, over what stands where there is none.
#[cycle(run)]
fn run_array<P: Phases>(
    work: &CellLoop<'_>,
    base: Base,
    background: Option<Background<'_>>,
    context: &Context<'_>,
    outside: Option<&Outside<P>>,
    state: &mut State<'_, '_>,
) -> Result<RunValue, Stop>
    ensures told { (m : MachineHeap) → IsAt state.old m
        → Told IsValue result state.new (job_does None
        (cells_job context.now (current state.old.frames) m work.now false (array_over base work.now.plan.now.shape background.entry)) m) }
    ensures scopes { OnOk result (SameScopes state.old.frames state.new.frames) }
    ensures lender { lender_of state.new.heap ≡ lender_of state.old.heap }
{
    let positions = work.plan.frame.count();
    let mut target = begin(&work.plan.shape, positions, context, state)?;
    fill(work, background, context, outside, state, &mut target.cells)?;
    finish(target, base, &work.plan.shape, state)
}

/// Appends the cells of all indices.
#[cycle(run)]
fn fill<P: Phases>(
    work: &CellLoop<'_>,
    background: Option<Background<'_>>,
    context: &Context<'_>,
    outside: Option<&Outside<P>>,
    state: &mut State<'_, '_>,
    cells: &mut Vec<Cell>,
) -> Result<(), Stop>
    ensures told { (m : MachineHeap) → IsAt state.old m
        → Told (λ _ found. cells.new.items ≡ cells.old.items ++ cells_over background.entry 0 found) result state.new
        (loop_cells context.now (current state.old.frames) work.now m) }
    ensures scopes { OnOk result (SameScopes state.old.frames state.new.frames) }
    ensures lender { lender_of state.new.heap ≡ lender_of state.old.heap }
{
    let mut index = IndexVector::new(context.alloc);
    for place in 0..work.plan.frame.count() {
        work.plan.frame.index(place, &mut index)?;
        let value = loop_cell(
            &work.source,
            &work.plan.ranges,
            &work.plan.form,
            index.components(),
            context,
            outside,
            state,
        )?;
        put_cell(&mut state.heap, value, background, place, cells)?;
    }
    Ok(())
}

/// The cells combined, beginning with a neutral value.
#[cycle(run)]
fn run_fold<P: Phases>(
    work: &CellLoop<'_>,
    op: Op,
    neutral: &Array,
    context: &Context<'_>,
    outside: Option<&Outside<P>>,
    state: &mut State<'_, '_>,
) -> Result<RunValue, Stop>
    ensures told { (m : MachineHeap) → IsAt state.old m
        → Told IsValue result state.new (job_does None
        (cells_job context.now (current state.old.frames) m work.now true (fold (combined op) neutral.now)) m) }
    ensures scopes { OnOk result (SameScopes state.old.frames state.new.frames) }
    ensures lender { lender_of state.new.heap ≡ lender_of state.old.heap }
{
    let positions = work.plan.frame.count();
    let target = begin_fold(&work.plan.shape, positions, context, state)?;
    let first = start(neutral)?;
    let sum = fold_cells(work, op, first, context, outside, state)?;
    finish_fold(sum, target, state)
}

/// The cells of all indices, combined.
#[cycle(run)]
fn fold_cells<P: Phases>(
    work: &CellLoop<'_>,
    op: Op,
    first: Sum,
    context: &Context<'_>,
    outside: Option<&Outside<P>>,
    state: &mut State<'_, '_>,
) -> Result<Sum, Stop>
    ensures told { (m : MachineHeap) → IsAt state.old m
        → Told (λ s found. array_of s ≡ fold (combined op) (array_of first) found) result state.new
        (loop_cells context.now (current state.old.frames) work.now m) }
    ensures scopes { OnOk result (SameScopes state.old.frames state.new.frames) }
    ensures lender { lender_of state.new.heap ≡ lender_of state.old.heap }
{
    let mut sum = first;
    let mut index = IndexVector::new(context.alloc);
    for place in 0..work.plan.frame.count() {
        work.plan.frame.index(place, &mut index)?;
        let value = loop_cell(
            &work.source,
            &work.plan.ranges,
            &work.plan.form,
            index.components(),
            context,
            outside,
            state,
        )?;
        sum = add_cell(context.alloc, &mut state.heap, op, sum, value)?;
    }
    Ok(sum)
}

/// The cell of an index, if it has one. The ranges are those of generators.
#[cycle(run)]
pub fn loop_cell<P: Phases>(
    source: &CellSource<'_>,
    ranges: &[Range],
    form: &Form,
    index: &[i32],
    context: &Context<'_>,
    outside: Option<&Outside<P>>,
    state: &mut State<'_, '_>,
) -> Result<Option<RunValue>, Stop>
    ensures told { (m : MachineHeap) → IsAt state.old m
        → Told IsPresent result state.new (unreleased form.now (source_at context.now (current state.old.frames) source.now ranges.now index.now) m) }
    ensures scopes { OnOk result (SameScopes state.old.frames state.new.frames) }
    ensures lender { lender_of state.new.heap ≡ lender_of state.old.heap }
{
    match body_at(source, ranges, index) {
        Some(body) => {
            let value = run_cell(&body, form, index, context, outside, state)?;
            Ok(Some(value))
        }
        None => Ok(None),
    }
}

/// The cell of a body at an index, which must have the form. With-loops within it are no phases.
#[cycle(run)]
pub fn run_cell<P: Phases>(
    body: &CellBody<'_>,
    form: &Form,
    index: &[i32],
    context: &Context<'_>,
    outside: Option<&Outside<P>>,
    state: &mut State<'_, '_>,
) -> Result<RunValue, Stop>
    ensures told { (m : MachineHeap) → IsAt state.old m
        → Told IsValue result state.new (body_cell context.now (body_of body.now) form.now index.now (current state.old.frames) m) }
    ensures scopes { OnOk result (SameScopes state.old.frames state.new.frames) }
    ensures lender { lender_of state.new.heap ≡ lender_of state.old.heap }
{
    let outer = state.phases.enter_cell();
    state.frames.enter()?;
    bind_index(state, body.index, body.names, index)?;
    let answer = run_first(body.block, context, outside, state);
    state.phases = outer;
    formed(answer, form, body.site)
}

//! Loops and their cells, in order on this thread.

ghost use Rattle.counted_code.specs.Loops.{job_does};
ghost use Rattle.counted_code.specs.Values.{Heap as MachineHeap};
ghost use Rattle.run_loops.specs.Jobs.{job_of, over_does, IsOver};
ghost use Rattle.run_loops.specs.Loops.{IsPresent, source_at, source_of_body, unreleased};
ghost use Rattle.run_loops.specs.Running.{IsAt, IsValue, SameScopes, Told};
ghost use Rattle.run_store.specs.Stands.{lender_of};
ghost use Rattle.run_values.specs.Scopes.{current};
ghost use Rattle.run_values.specs.Shown.{value_of};
ghost use Rattle.std.specs.Prelude.{◌≡◌, None, OnOk};

use crate::array_loops::{loop_cell, run_cell, run_cell_loop};
use crate::marked_loops::run_over;
use array_with_loops::Range;
use run_loops::{CellBody, CellLoop, CellSource, Context, Never, State};
use run_values::RunValue;
use sac_base::{Form, Stop};

/// The result of a loop whose checks have passed.
pub fn run_in_order(
    work: &CellLoop<'_>,
    context: &Context<'_>,
    state: &mut State<'_, '_>,
) -> Result<RunValue, Stop>
    ensures told { (m : MachineHeap) → IsAt state.old m
        → Told IsValue result state.new (job_does None (job_of context.now (current state.old.frames) m work.now) m) }
    ensures scopes { OnOk result (SameScopes state.old.frames state.new.frames) }
    ensures lender { lender_of state.new.heap ≡ lender_of state.old.heap }
{
    run_cell_loop::<Never>(work, context, None, state)
}

/// The result of an array of the cells alone, over that of a value which is the only reference to its buffer.
pub fn run_over_in_order(
    work: &CellLoop<'_>,
    array: RunValue,
    context: &Context<'_>,
    state: &mut State<'_, '_>,
) -> Result<RunValue, Stop>
    ensures told { (m : MachineHeap) → IsAt state.old m → IsOver work.now (value_of array) m
        → Told IsValue result state.new (over_does context.now (current state.old.frames) work.now (value_of array) m) }
    ensures scopes { OnOk result (SameScopes state.old.frames state.new.frames) }
    ensures lender { lender_of state.new.heap ≡ lender_of state.old.heap }
{
    run_over::<Never>(work, array, context, None, state)
}

/// The cell of an index, if it has one, which must have a form. The ranges are those of generators.
pub fn cell_in_order(
    source: &CellSource<'_>,
    ranges: &[Range],
    form: &Form,
    index: &[i32],
    context: &Context<'_>,
    state: &mut State<'_, '_>,
) -> Result<Option<RunValue>, Stop>
    ensures told { (m : MachineHeap) → IsAt state.old m
        → Told IsPresent result state.new (unreleased form.now (source_at context.now (current state.old.frames) source.now ranges.now index.now) m) }
    ensures scopes { OnOk result (SameScopes state.old.frames state.new.frames) }
    ensures lender { lender_of state.new.heap ≡ lender_of state.old.heap }
{
    loop_cell::<Never>(source, ranges, form, index, context, None, state)
}

/// The cell of a body at an index, which must have a form, or none where there is no body.
pub fn body_in_order(
    body: Option<CellBody<'_>>,
    form: &Form,
    index: &[i32],
    context: &Context<'_>,
    state: &mut State<'_, '_>,
) -> Result<Option<RunValue>, Stop>
    ensures told { (m : MachineHeap) → IsAt state.old m
        → Told IsPresent result state.new (unreleased form.now (source_of_body context.now (current state.old.frames) index.now body.entry) m) }
    ensures scopes { OnOk result (SameScopes state.old.frames state.new.frames) }
    ensures lender { lender_of state.new.heap ≡ lender_of state.old.heap }
{
    match body {
        Some(body) => {
            let value = run_cell::<Never>(&body, form, index, context, None, state)?;
            Ok(Some(value))
        }
        None => Ok(None),
    }
}

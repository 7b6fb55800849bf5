//! Cells that read of an array the element at their own index alone.

ghost use Rattle.std.specs.Prelude.{IfOk, IsTrue};
ghost use Rattle.phase_kernels.specs.over_checks.Over.{MayBeOver, ReadOwn, SourceMayBeOver};
ghost use Rattle.run_values.specs.Scopes.{current};
ghost use Rattle.run_values.specs.Shown.{value_of};

use crate::lists::kernels_for;
use crate::over_checks::arrays::{is_array_in, is_filled};
use crate::over_checks::holders::only_holder;
use crate::{KernelCells, lent_scope, lowering_of};
use core_ir::Var;
use counted_code::CodePart;
use kept_kernels::LoopTable;
use own_kernels::{own_kernels_read_own, parts_read_own};
use phase_loop_cells::part_ranges;
use run_kernels::Scope;
use run_loops::CellSource;
use run_values::RunValue;
use sac_base::{Memory, Shape};

/// Whether all cells of a parted loop over a value's array may be computed before one of them is written: they are scalars, the
/// value is the reference of one of the variables that they read to a buffer, of no other of them, and they read of the array the
/// element at their own index alone. The table keeps kernels, by which that is seen.
pub fn may_be_over(
    cells: &KernelCells<'_>,
    table: &LoopTable<'_>,
    shape: &Shape,
    value: RunValue,
) -> Result<bool, Memory>
    ensures { IfOk result (λ over. IsTrue over
        → SourceMayBeOver cells.now.cells.context cells.now.cells.heap.now (current cells.now.cells.frames.now) cells.now.cells.source
        cells.now.cells.plan.now.form shape.now cells.now.live.now (value_of value)) }
{
    match cells.cells.source {
        CellSource::Generators(_) => Ok(false),
        CellSource::Parts(parts) => parts_may_be_over(cells, table, parts, shape, value),
    }
}

// The same of these parts.
fn parts_may_be_over(
    cells: &KernelCells<'_>,
    table: &LoopTable<'_>,
    parts: &[CodePart],
    shape: &Shape,
    value: RunValue,
) -> Result<bool, Memory>
    ensures { IfOk result (λ over. IsTrue over
        → MayBeOver cells.now.cells.context cells.now.cells.heap.now (current cells.now.cells.frames.now) parts.now cells.now.cells.plan.now.form
        shape.now cells.now.live.now (value_of value)) }
{
    let RunValue::Buffer(base, id, _) = value else {
        return Ok(false);
    };
    let Some(holder) = only_holder(cells.live, id, cells.cells.frames) else {
        return Ok(false);
    };
    let frames = cells.cells.frames;
    if !is_array_in(value, base, shape, id)
        || !is_array_in(frames.get(holder), base, shape, id)
        || !is_filled(cells.cells.heap, id, shape)
        || cells.cells.plan.form.shape.rank() != 0
    {
        return Ok(false);
    }
    let own = cells_read_own(cells, table, parts, holder, shape.rank())?;
    Ok(own)
}

// Whether each part has a kernel for indices of so many components that reads of a variable's array the element at its own index alone.
fn cells_read_own(
    cells: &KernelCells<'_>,
    table: &LoopTable<'_>,
    parts: &[CodePart],
    array: Var,
    rank: usize,
) -> Result<bool, Memory>
    ensures { IfOk result (λ own. IsTrue own
        → ReadOwn cells.now.cells.context cells.now.cells.heap.now (current cells.now.cells.frames.now) parts.now
        cells.now.cells.plan.now.form array rank) }
{
    let alloc = cells.cells.context.alloc;
    let form = &cells.cells.plan.form;
    let scope = lent_scope(alloc, cells.live, cells.cells.frames, cells.cells.heap)?;
    let Scope { known, buffers: _ } = scope;
    let ranges = part_ranges(alloc, parts)?;
    let source = CellSource::Parts(parts);
    let lowering = lowering_of(&cells.cells.context);
    let kernels = kernels_for(table, lowering, &source, &ranges, form, &known)?;
    own_kernels_read_own();
    Ok(parts_read_own(kernels.all(), parts.len(), &known, array, rank))
}

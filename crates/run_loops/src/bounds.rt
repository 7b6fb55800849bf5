//! The operands of with-loops, and the plans of parted loops.

ghost use Rattle.std.specs.Prelude.{◌≡◌, ◌↔◌, ◌++◌, ◌-ℤ◌, [], IfOk, IfSome, IsTrue, All, map, option_map, pos, unsigned_abs};
ghost use Rattle.core_loops.specs.folds.Cells.{IsBox};
ghost use Rattle.core_ir.specs.Meaning.{extents, name_count};
ghost use Rattle.counted_code.specs.Machine.{bounds_of, reads};
ghost use Rattle.counted_code.specs.Values.{Heap as MachineHeap};
ghost use Rattle.array_with_loops.specs.Plans.{plan_of};
ghost use Rattle.run_loops.specs.Jobs.{AreIndicesOf, BeginsAtZero, IsDense};
ghost use Rattle.run_loops.specs.Loops.{IsFull, IsWordAxis, plan_of_parts, shape_of_parts};
ghost use Rattle.counted_code.specs.Pieces.{gen_head};
ghost use Rattle.run_store.specs.Stands.{Stands};
ghost use Rattle.run_values.specs.Numbers.{numbers};
ghost use Rattle.run_values.specs.Scopes.{current};
ghost use Rattle.run_values.specs.Shown.{shape_of, value_of};
ghost use Rattle.sac_base.specs.Arrays.{size};
ghost use Rattle.sac_base.specs.Grids.{members};
ghost use Rattle.sac_base.specs.WithLoops.{distance};

use crate::state::{Context, State};
use array_with_loops::{Bounds, Frame, Plan};
use core_ir::{PartedOp, Var};
use counted_code::CodeGen;
use run_store::{Store, buffer_cells, read_array};
use run_values::{Few, RunValue};
use sac_base::{Array, Base, Form, Grid, Grid1, Memory, Shape, elements};
use std::alloc::Global;

/// The operands of the generators.
pub fn all_bounds(
    gens: &[CodeGen],
    context: &Context<'_>,
    state: &State<'_, '_>,
) -> Result<Vec<Bounds>, Memory>
    ensures { (m : MachineHeap) → Stands state.now.heap m
        → IfOk result (λ v. v.items ≡ map (λ g. bounds_of (gen_head g) (reads m (current state.now.frames))) gens.now) }
{
    let mut bounds = Vec::new(context.alloc);
    for g in gens {
        bounds.push(bounds_in(g, context, state)?)?;
    }
    Ok(bounds)
}

fn bounds_in(g: &CodeGen, context: &Context<'_>, state: &State<'_, '_>) -> Result<Bounds, Memory>
    ensures { (m : MachineHeap) → Stands state.now.heap m → IfOk result (λ b. b ≡ bounds_of (gen_head g.now) (reads m (current state.now.frames))) }
{
    Ok(Bounds {
        lower: operand(g.lower, context, state)?,
        lower_closed: g.lower_closed,
        names: count_names(&g.names),
        upper: operand(g.upper, context, state)?,
        upper_closed: g.upper_closed,
        step: operand(g.step, context, state)?,
        width: operand(g.width, context, state)?,
        site: g.site,
    })
}

// The number of index names, where there are names.
fn count_names(names: &[Var]) -> Option<usize>
    ensures { result ≡ name_count names.now }
{
    if names.is_empty() {
        None
    } else {
        Some(names.len())
    }
}

// The array of an operand that may be left out.
fn operand(
    x: Option<Var>,
    context: &Context<'_>,
    state: &State<'_, '_>,
) -> Result<Option<Array>, Memory>
    ensures { (m : MachineHeap) → Stands state.now.heap m → IfOk result (λ o. o ≡ option_map (reads m (current state.now.frames)) x) }
{
    match x {
        Some(x) => {
            let array = read_array(context.alloc, &state.heap, state.frames.get(x))?;
            Ok(Some(array))
        }
        None => Ok(None),
    }
}

/// The shape of the array that a value is. A buffer that is not alive, or has another number of cells, counts as want of
/// memory, as where the array is read.
pub fn read_shape(alloc: Global, heap: &Store<'_>, value: &RunValue) -> Result<Shape, Memory>
    ensures shape { IfOk result (λ shape. shape ≡ shape_of (value_of value.now)) }
    ensures full { (m : MachineHeap) → Stands heap.now m → IfOk result (λ shape. IsFull shape (value_of value.now) m) }
{
    let shape = shape_from(alloc, &value.extents())?;
    if !is_full(heap, value, &shape)? {
        return Err(Memory);
    }
    Ok(shape)
}

// The shape of these extents.
fn shape_from(alloc: Global, extents: &Few) -> Result<Shape, Memory>
    ensures { IfOk result (λ shape. shape ≡ map unsigned_abs (numbers extents.now)) }
{
    match Shape::from_extents(alloc, extents.as_slice()) {
        Some(shape) => Ok(shape),
        None => Err(Memory),
    }
}

// Whether the value's buffer, if it has one, has as many cells as an array of this shape.
fn is_full(heap: &Store<'_>, value: &RunValue, shape: &Shape) -> Result<bool, Memory>
    ensures { (m : MachineHeap) → Stands heap.now m → IfOk result (λ full. IsTrue full → IsFull shape.now (value_of value.now) m) }
{
    match value {
        RunValue::Buffer(_, id, _) => {
            let cells = buffer_cells(heap, *id)?;
            Ok(has_elements(shape, cells.len()))
        }
        _ => Ok(true),
    }
}

fn has_elements(shape: &Shape, cells: usize) -> bool
    ensures { IsTrue result → cells ≡ size shape.now }
{
    elements(shape) == Some(cells as u64)
}

// The members of a frame. One that has gaps, or no array's indices, counts as want of memory.
fn frame_of(alloc: Global, grid: &Grid) -> Result<Frame, Memory>
    ensures { IfOk result (λ f. f ≡ members grid.now) }
{
    if !are_words(grid) {
        return Err(Memory);
    }
    let extents = outer_shape(alloc, grid)?;
    if elements(&extents).is_none() {
        return Err(Memory);
    }
    Frame::of_grid(alloc, grid)
}

// Whether the axes have no gaps, and only numbers of 32 bits.
fn are_words(grid: &Grid) -> bool
    ensures { IsTrue result → All IsWordAxis grid.now }
{
    let axes = grid.axes();
    for k in 0..axes.len() {
        if !is_word(&axes[k]) {
            return false;
        }
    }
    true
}

fn is_word(axis: &Grid1) -> bool
    ensures { IsTrue result → IsWordAxis axis.now }
{
    axis.step == 1 && axis.lo >= -0x8000_0000 && axis.hi <= 0x8000_0000
}

// The extents of a frame.
fn outer_shape(alloc: Global, grid: &Grid) -> Result<Shape, Memory>
    ensures { IfOk result (λ shape. shape ≡ extents grid.now) }
{
    let mut few = Few::empty();
    for axis in grid.axes() {
        let Some(extent) = extent_of(axis) else {
            return Err(Memory);
        };
        if !few.push(extent) {
            return Err(Memory);
        }
    }
    match Shape::from_extents(alloc, few.as_slice()) {
        Some(shape) => Ok(shape),
        None => Err(Memory),
    }
}

// How many numbers an axis without gaps goes through, if that is a number of 32 bits.
fn extent_of(axis: &Grid1) -> Option<i32>
    ensures { IfSome result (λ n. pos (distance (axis.now.hi -ℤ axis.now.lo)) ≡ n) }
{
    if axis.hi <= axis.lo {
        return Some(0);
    }
    match axis.hi.checked_sub(axis.lo) {
        Some(extent) => match i32::try_from(extent) {
            Ok(n) => Some(n),
            Err(_) => None,
        },
        None => None,
    }
}

/// The plan of a parted loop, whose frame may have no gaps.
pub fn parted_plan(
    alloc: Global,
    frame: &Grid,
    base: Base,
    cell: &Shape,
    op: PartedOp,
) -> Result<Plan, Memory>
    ensures { IfOk result (λ p. plan_of p ≡ plan_of_parts frame.now base cell.now op) }
{
    let shape = parted_shape(alloc, frame, cell, op)?;
    Ok(Plan {
        ranges: Vec::new(alloc),
        frame: frame_of(alloc, frame)?,
        form: Form {
            base,
            shape: cell.copy(),
        },
        shape,
    })
}

// The shape of a cell, if the loop is a fold, and else that of an array of the cells.
fn parted_shape(alloc: Global, frame: &Grid, cell: &Shape, op: PartedOp) -> Result<Shape, Memory>
    ensures { IfOk result (λ shape. shape ≡ shape_of_parts frame.now cell.now op) }
{
    match op {
        PartedOp::Fold { .. } => Ok(cell.copy()),
        _ => joined_shape(alloc, frame, cell),
    }
}

// The extents of a frame, followed by those of its cells.
fn joined_shape(alloc: Global, frame: &Grid, cell: &Shape) -> Result<Shape, Memory>
    ensures { IfOk result (λ shape. shape ≡ extents frame.now ++ cell.now) }
{
    let outer = outer_shape(alloc, frame)?;
    outer.joined(cell).ok_or(Memory)
}

/// Whether the cells at the indices of a frame are the elements of the result in order: they are scalars, and the frame is a box
/// that begins at 0.
pub fn is_in_order(frame: &Grid, cell: &Shape) -> bool
    ensures { IsTrue result → AreIndicesOf (extents frame.now ++ cell.now) (members frame.now) }
{
    is_scalar(cell) && is_box(frame)
}

fn is_scalar(shape: &Shape) -> bool
    ensures { IsTrue result → shape.now ≡ [] }
{
    shape.rank() == 0
}

fn is_box(frame: &Grid) -> bool
    ensures { IsTrue result → IsBox frame.now }
{
    let axes = frame.axes();
    all_begin_at_zero(axes) && are_dense(axes)
}

fn all_begin_at_zero(axes: &[Grid1]) -> bool
    ensures { IsTrue result ↔ All BeginsAtZero axes.now }
{
    axes.iter().all(|axis| begins_at_zero(axis))
}

fn begins_at_zero(axis: &Grid1) -> bool
    ensures { IsTrue result ↔ BeginsAtZero axis.now }
{
    axis.lo == 0
}

fn are_dense(axes: &[Grid1]) -> bool
    ensures { IsTrue result ↔ All IsDense axes.now }
{
    axes.iter().all(|axis| is_dense(axis))
}

fn is_dense(axis: &Grid1) -> bool
    ensures { IsTrue result ↔ IsDense axis.now }
{
    axis.step == 1
}

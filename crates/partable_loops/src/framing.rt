//! The frame, the grids and the cell of a with-loop.

ghost use Rattle.std.specs.Prelude.{◌≡◌, ◌≤◌, ◌++◌, Some, Ok, IfOk, List, ℕ, map, length, All, pos};
ghost use Rattle.sac_base.specs.declared.base.Base.{Base};
ghost use Rattle.sac_base.specs.declared.op.Op.{Op};
ghost use Rattle.sac_base.specs.declared.site.Site.{Site};
ghost use Rattle.sac_base.specs.Arrays.{size, MOST};
ghost use Rattle.sac_base.specs.Parts.{shape_of_numbers, vector_of};
ghost use Rattle.sac_base.specs.WithLoops.{Plan, plan, genarray, modarray, fold_by, shape_spans};
ghost use Rattle.core_ir.specs.declared.tree.Var.{Var as Variable};
ghost use Rattle.core_ir.specs.declared.tree.CoreOp.TheVariants.{Genarray, Modarray, Fold};
ghost use Rattle.core_ir.specs.Meaning.{cell_form, extents};
ghost use Rattle.fact_table.specs.Table.{facts_of};
ghost use Rattle.core_loops.specs.Loops.{grid_range, spanned};
ghost use Rattle.partable_loops.specs.Framings.{FramesPlan, FramesKnown, HasPlan};
ghost use Rattle.partable_loops.specs.Refused.{Decides, refusal_of};

use crate::grids::{grid_of_ranges, grid_of_shape, grids_of};
use crate::literals::literal;
use crate::refusal::Unplanned;
use array_with_loops::{Bounds, Frame, index_length, ranges_of};
use core_ir::{CoreOp, Var};
use fact_table::FactTable;
use sac_base::{Array, Grid, Shape, Stop, elements};
use std::alloc::Global;

/// What is known of a with-loop before its cells.
#[derive(Drop)]
pub struct Framed {
    /// The members of each generator.
    pub grids: Vec<Grid>,
    /// The indices.
    pub frame: Grid,
    /// The shape of a cell.
    pub cell: Shape,
}

/// The frame of a with-loop with these bounds, if the shapes that tell it are known and there is no fault before its cells.
pub fn frame_of(
    alloc: Global,
    table: &FactTable,
    op: CoreOp,
    bounds: &[Bounds],
) -> Result<Framed, Unplanned>
    ensures { Decides result (λ f. (s : Site) (base : Base) → FramesKnown (facts_of table.now) s op base bounds.now f)
        (HasPlan (facts_of table.now) op bounds.now) }
{
    match op {
        CoreOp::Genarray { shape, default } => {
            let whole = literal(table, shape)?;
            genarray_frame(alloc, bounds, whole, known_shape(table, default)?)
        }
        CoreOp::Modarray { array } => modarray_frame(alloc, bounds, known_shape(table, array)?),
        CoreOp::Fold { neutral, .. } => fold_frame(alloc, bounds, known_shape(table, neutral)?),
    }
}

/// The shape of a variable, where it is known.
fn known_shape(table: &FactTable, x: Var) -> Result<&Shape, Unplanned>
    ensures { Decides result (λ shape. (facts_of table.now x).shape ≡ Some shape.now) ((shape : List ℕ) × ((facts_of table.now x).shape ≡ Some shape)) }
{
    match &table.fact(x).shape {
        Some(shape) => Ok(shape),
        None => Err(Unplanned::NotPartable),
    }
}

/// Why a plan that stops is none.
fn refused(stop: Stop) -> Unplanned
    ensures { result ≡ refusal_of stop }
{
    match stop {
        Stop::Faulted(_) => Unplanned::NotPartable,
        Stop::Memory => Unplanned::Memory,
    }
}

/// The shape that a vector gives, if it gives one.
fn shape_of(alloc: Global, array: &Array) -> Option<Shape>
    ensures { result ≡ shape_of_numbers (vector_of array.now) }
{
    if array.shape().rank() != 1 {
        return None;
    }
    Shape::from_extents(alloc, array.cells())
}

fn genarray_frame(
    alloc: Global,
    bounds: &[Bounds],
    shape: &Array,
    cell: &Shape,
) -> Result<Framed, Unplanned>
    ensures { Decides result
        (λ f. (f.cell ≡ cell.now) × ((s : Site) (base : Base) (x y : Variable) →
        FramesPlan base (Genarray x y) bounds.now (genarray shape.now (cell_form base cell.now) s) f))
        ((s : Site) × ((base : Base) × ((planned : Plan) × (plan bounds.now (genarray shape.now (cell_form base cell.now) s) ≡ Ok planned)))) }
{
    let Some(front) = shape_of(alloc, shape) else {
        return Err(Unplanned::NotPartable);
    };
    let Some(whole) = front.joined(cell) else {
        return Err(Unplanned::NotPartable);
    };
    let _ = front.extents();
    let _ = whole.extents();
    if elements(&front).is_none() || elements(&whole).is_none() {
        return Err(Unplanned::NotPartable);
    }
    match ranges_of(alloc, bounds, front.rank(), Shape::MOST, &front, true) {
        Ok(ranges) => Ok(Framed {
            grids: grids_of(alloc, &ranges)?,
            frame: grid_of_shape(alloc, &front)?,
            cell: cell.copy(),
        }),
        Err(stop) => Err(refused(stop)),
    }
}

fn modarray_frame(alloc: Global, bounds: &[Bounds], shape: &Shape) -> Result<Framed, Unplanned>
    ensures { Decides result
        (λ f. (shape.now ≡ extents f.frame ++ f.cell) × ((s : Site) (base : Base) (x : Variable) →
        FramesPlan base (Modarray x) bounds.now (modarray (cell_form base shape.now) s) f))
        ((s : Site) × ((base : Base) × ((planned : Plan) ×
        ((plan bounds.now (modarray (cell_form base shape.now) s) ≡ Ok planned) × (size shape.now ≤ MOST))))) }
{
    let rank = shape.rank();
    let n = index_length(bounds, rank);
    let front = shape.first(n);
    let _ = front.extents();
    let _ = shape.extents();
    if elements(&front).is_none() || elements(shape).is_none() {
        return Err(Unplanned::NotPartable);
    }
    match ranges_of(alloc, bounds, n, rank, &front, true) {
        Ok(ranges) => Ok(Framed {
            grids: grids_of(alloc, &ranges)?,
            frame: grid_of_shape(alloc, &front)?,
            cell: shape.rest(n.min(rank)),
        }),
        Err(stop) => Err(refused(stop)),
    }
}

fn fold_frame(alloc: Global, bounds: &[Bounds], cell: &Shape) -> Result<Framed, Unplanned>
    ensures { Decides result
        (λ f. (f.cell ≡ cell.now) × ((s : Site) (base : Base) (o : Op) (x : Variable) →
        FramesPlan base (Fold o x) bounds.now (fold_by o (cell_form base cell.now) s) f))
        ((s : Site) × ((base : Base) × ((o : Op) × ((planned : Plan) × (plan bounds.now (fold_by o (cell_form base cell.now) s) ≡ Ok planned))))) }
{
    let n = index_length(bounds, 0);
    match ranges_of(alloc, bounds, n, Shape::MOST, &Shape::empty(alloc), false) {
        Ok(ranges) => {
            if Frame::of_ranges(alloc, &ranges)?.is_none() {
                return Err(Unplanned::NotPartable);
            }
            Ok(Framed {
                grids: grids_of(alloc, &ranges)?,
                frame: grid_of_ranges(alloc, &ranges)?,
                cell: cell.copy(),
            })
        }
        Err(stop) => Err(refused(stop)),
    }
}

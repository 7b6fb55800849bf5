//! Ranges and shapes as grids.

ghost use Rattle.std.specs.Prelude.{◌≡◌, ◌≤◌, IfOk, map, length, All, pos, false, [], ◌∷◌};
ghost use Rattle.sac_base.specs.WithLoops.{is_empty_box, shape_spans, span_of};
ghost use Rattle.array_with_loops.specs.Frames.{joined_frame};
ghost use Rattle.core_loops.specs.Loops.{axis_of, grid_range, spanned};
ghost use Rattle.partable_loops.specs.Framings.{IsVoid, IsWordAxis};

use array_with_loops::{Axis, Range, joined_range};
use sac_base::{Grid, Grid1, Memory, Shape};
use std::alloc::Global;

/// The members of each range.
pub fn grids_of(alloc: Global, ranges: &[Range]) -> Result<Vec<Grid>, Memory>
    requires { All (λ r. length r ≤ 8) ranges.now }
    ensures { IfOk result (λ grids. map grid_range grids.items ≡ ranges.now) }
{
    let mut grids = Vec::new(alloc);
    for range in ranges {
        grids.push(grid_of(alloc, range)?)?;
    }
    Ok(grids)
}

fn grid_of(alloc: Global, range: &Range) -> Result<Grid, Memory>
    requires { length range.now ≤ 8 }
    ensures { IfOk result (λ grid. grid_range grid ≡ range.now) }
{
    let mut axes = Vec::new(alloc);
    for axis in range.axes() {
        axes.push(axis.grid_axis())?;
    }
    Ok(Grid::new(axes))
}

/// All vectors of the least box that holds the boxes of all ranges that are not empty.
#[tactic(auto, using(crate::proofs::Boxes::some_box, crate::proofs::Boxes::no_box))]
pub fn grid_of_ranges(alloc: Global, ranges: &[Range]) -> Result<Grid, Memory>
    requires { All (λ r. length r ≤ 8) ranges.now }
    ensures spans { IfOk result (λ grid. grid_range grid ≡ map spanned (joined_frame ranges.now)) }
    ensures words { IfOk result (λ grid. All IsWordAxis grid) }
    ensures rank { IfOk result (λ grid. length grid ≤ 8) }
{
    match joined_range(alloc, ranges)? {
        Some(range) => grid_of_box(alloc, &range),
        None => no_index(alloc),
    }
}

/// All vectors of a box.
fn grid_of_box(alloc: Global, range: &Range) -> Result<Grid, Memory>
    requires some { is_empty_box range.now ≡ false }
    requires rank { length range.now ≤ 8 }
    ensures spans { IfOk result (λ grid. grid_range grid ≡ map spanned (map span_of range.now)) }
    ensures words { IfOk result (λ grid. All IsWordAxis grid) }
    ensures rank { IfOk result (λ grid. length grid ≤ 8) }
{
    let mut axes = Vec::new(alloc);
    for axis in range.axes() {
        axes.push(without_gaps(axis))?;
    }
    Ok(Grid::new(axes))
}

fn without_gaps(axis: &Axis) -> Grid1
    ensures axis { axis_of result ≡ record { lower = axis.now.lower; upper = axis.now.upper; step = pos 1; width = pos 1 } }
    ensures word { IsWordAxis result }
{
    let _ = axis.lower();
    let axis = axis.grid_axis();
    Grid1 {
        lo: axis.lo,
        hi: axis.hi,
        step: 1,
        width: 1,
    }
}

/// All indices of a shape.
pub fn grid_of_shape(alloc: Global, shape: &Shape) -> Result<Grid, Memory>
    ensures { IfOk result (λ grid. grid_range grid ≡ map spanned (shape_spans shape.now)) }
{
    let mut axes = Vec::new(alloc);
    for extent in shape.extents() {
        axes.push(axis_below(*extent))?;
    }
    Ok(Grid::new(axes))
}

/// The numbers from 0 to below an extent.
fn axis_below(extent: i32) -> Grid1
    ensures { axis_of result ≡ record { lower = pos 0; upper = extent; step = pos 1; width = pos 1 } }
{
    Grid1 {
        lo: 0,
        hi: i64::from(extent),
        step: 1,
        width: 1,
    }
}

/// One axis without a number.
fn no_index(alloc: Global) -> Result<Grid, Memory>
    ensures void { IfOk result IsVoid }
    ensures words { IfOk result (λ grid. All IsWordAxis grid) }
    ensures rank { IfOk result (λ grid. length grid ≤ 8) }
{
    let mut axes = Vec::new(alloc);
    axes.push(axis_below(0))?;
    Ok(Grid::new(axes))
}

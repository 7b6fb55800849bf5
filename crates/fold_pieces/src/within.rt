//! Whether a moved grid lies inside of a frame, and the box of a grid.

ghost use Rattle.std.specs.Prelude.{◌≡◌, ◌↔◌, IsTrue, IfOk, pos, map};
ghost use Rattle.core_loops.specs.Loops.{axis_of, grid_range};
ghost use Rattle.core_loops.specs.Pairs.{box_range};
ghost use Rattle.fold_pieces.specs.Pieces.{vectors};
ghost use Rattle.std.specs.Ordering.{int_eq};
ghost use Rattle.fold_pieces.specs.Cuts.{IsDense, IsInside, have_step_one};

use grid_spans::moved::is_within;
use sac_base::{Grid, Grid1, Memory};
use std::alloc::Global;

/// Whether each axis has all numbers between its bounds.
pub fn is_dense(frame: &Grid) -> bool
    ensures { IsTrue result ↔ IsDense frame.now }
{
    are_dense(frame.axes())
}

fn are_dense(axes: &[Grid1]) -> bool
    ensures { result ≡ have_step_one axes.now }
{
    match axes.split_first() {
        None => true,
        Some((axis, others)) => has_step_one(axis) && are_dense(others),
    }
}

fn has_step_one(axis: &Grid1) -> bool
    ensures { result ≡ int_eq axis.now.step (pos 1) }
{
    axis.step == 1
}

/// Whether each member of a grid, moved by any of the vectors, lies in a frame.
pub fn is_inside(grid: &Grid, offsets: &[Vec<i32>], frame: &Grid) -> bool
    requires { IsDense frame.now }
    ensures { IsTrue result ↔ IsInside frame.now grid.now (vectors offsets.now) }
{
    for offset in offsets {
        if !is_within(grid, offset, frame) {
            return false;
        }
    }
    true
}

/// All vectors between the bounds of a grid.
pub fn box_of(alloc: Global, grid: &Grid) -> Result<Grid, Memory>
    ensures { IfOk result (λ frame. grid_range frame ≡ box_range grid.now) }
{
    let mut axes = Vec::new(alloc);
    for axis in grid.axes() {
        axes.push(without_gaps(axis))?;
    }
    Ok(Grid::new(axes))
}

fn without_gaps(axis: &Grid1) -> Grid1
    ensures { axis_of result ≡ record { lower = axis.now.lo; upper = axis.now.hi; step = pos 1; width = pos 1 } }
{
    Grid1 {
        lo: axis.lo,
        hi: axis.hi,
        step: 1,
        width: 1,
    }
}

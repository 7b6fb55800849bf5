//! Whether an array has a part at each member of a grid.

ghost use Rattle.std.specs.Prelude.{◌≡◌, ◌↔◌, ◌+ℤ◌, ◌-ℤ◌, ◌≤ℤ◌, ◌<ℤ◌, pos, IsTrue, List, ℤ, Some, true, false};
ghost use Rattle.sac_base.specs.Grids.{has_index, has_vector};
ghost use Rattle.core_loops.specs.Indices.{at_offset};
ghost use Rattle.total_cells.specs.Inside.{IsAxisInside, AreInside};

use grid_spans::moved::{first_number, has_members, other_numbers};
use grid_spans::span_of;
use sac_base::{Grid, Grid1, Shape};

/// Whether an array of a shape has a part at each member of a grid, with these numbers added to it as whole numbers.
///
/// The least and the greatest member of each axis tell it, so it takes the time of the axes.
pub fn is_inside(grid: &Grid, shape: &Shape, numbers: &[i32]) -> bool
    ensures { result ≡ at_offset grid.now shape.now (Some numbers.now) }
{
    let axes = grid.axes();
    let extents = shape.extents();
    if has_members(axes) {
        are_inside(axes, extents, numbers)
    } else {
        true
    }
}

/// Whether each axis lies inside the extent at its place, with the number at its place added.
fn are_inside(axes: &[Grid1], extents: &[i32], numbers: &[i32]) -> bool
    ensures { IsTrue result ↔ AreInside axes.now extents.now numbers.now }
{
    match axes.split_first() {
        None => true,
        Some((axis, inner)) => match extents.split_first() {
            None => false,
            Some((extent, others)) => {
                is_axis_inside(axis, *extent, first_number(numbers))
                    && are_inside(inner, others, other_numbers(numbers))
            }
        },
    }
}

/// Whether all members of an axis, with a number added, are from 0 on and below an extent.
fn is_axis_inside(axis: &Grid1, extent: i32, number: i32) -> bool
    ensures { IsTrue result ↔ IsAxisInside axis.now extent number }
{
    match span_of(axis) {
        None => true,
        Some(span) => is_from_zero(span.least, number) && is_below(span.greatest, number, extent),
    }
}

fn is_from_zero(member: i64, number: i32) -> bool
    ensures { IsTrue result ↔ (pos 0 ≤ℤ (member +ℤ number)) }
{
    -i64::from(number) <= member
}

fn is_below(member: i64, number: i32, extent: i32) -> bool
    ensures { IsTrue result ↔ ((member +ℤ number) <ℤ extent) }
{
    let limit = difference(extent, number);
    member < limit
}

fn difference(a: i32, b: i32) -> i64
    ensures { result ≡ a -ℤ b }
{
    i64::from(a) - i64::from(b)
}

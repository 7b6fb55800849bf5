//! Whether a moved grid lies inside of a frame.

ghost use Rattle.std.specs.Prelude.{◌≡◌, ◌↔◌, ◌+ℤ◌, ◌≤ℤ◌, ◌<ℤ◌, pos, IsTrue, List, ℤ, true, false};
ghost use Rattle.std.specs.List.{All};
ghost use Rattle.sac_base.specs.Grids.{has_index, has_vector};
ghost use Rattle.grid_spans.specs.moved.Within.{number_at_first, numbers_behind, HasMember, HaveMembers, IsAxisWithin, AreWithin, IsWithin};

use crate::span_of;
use sac_base::{Grid, Grid1};

/// Whether each member of a grid, moved by a vector as whole numbers, lies in a frame of step 1.
///
/// The least and the greatest member of each axis tell it, so it takes the time of the axes.
pub fn is_within(grid: &Grid, offset: &[i32], frame: &Grid) -> bool
    requires { All (λ axis. axis.step ≡ pos 1) frame.now }
    ensures { IsTrue result ↔ IsWithin grid.now offset.now frame.now }
{
    let axes = grid.axes();
    let ranges = frame.axes();
    if has_members(axes) {
        are_within(axes, offset, ranges)
    } else {
        true
    }
}

/// Whether each axis has a member.
pub fn has_members(axes: &[Grid1]) -> bool
    ensures some { result ≡ true → HaveMembers axes.now }
    ensures none { result ≡ false → (v : List ℤ) → has_vector axes.now v ≡ false }
{
    match axes.split_first() {
        None => true,
        Some((axis, inner)) => has_member(axis) && has_members(inner),
    }
}

fn has_member(axis: &Grid1) -> bool
    ensures some { result ≡ true → HasMember axis.now }
    ensures none { result ≡ false → (x : ℤ) → has_index axis.now x ≡ false }
{
    span_of(axis).is_some()
}

/// Whether each axis lies between the bounds of the range at its place, with the number at its place added, and there are as many ranges.
fn are_within(axes: &[Grid1], numbers: &[i32], ranges: &[Grid1]) -> bool
    ensures { IsTrue result ↔ AreWithin axes.now numbers.now ranges.now }
{
    match axes.split_first() {
        None => ranges.is_empty(),
        Some((axis, inner)) => match ranges.split_first() {
            None => false,
            Some((range, others)) => {
                is_axis_within(axis, first_number(numbers), range)
                    && are_within(inner, other_numbers(numbers), others)
            }
        },
    }
}

/// The number for the first axis: where there is none, nothing is added.
pub fn first_number(numbers: &[i32]) -> i32
    ensures { result ≡ number_at_first numbers.now }
{
    match numbers.first() {
        Some(number) => *number,
        None => 0,
    }
}

/// The numbers for the other axes.
pub fn other_numbers(numbers: &[i32]) -> &[i32]
    ensures { result.now ≡ numbers_behind numbers.now }
{
    match numbers.split_first() {
        Some((_, others)) => others,
        None => &[],
    }
}

/// Whether all members of an axis, with a number added, lie between the bounds of a range.
fn is_axis_within(axis: &Grid1, number: i32, range: &Grid1) -> bool
    ensures { IsTrue result ↔ IsAxisWithin axis.now number range.now }
{
    match span_of(axis) {
        None => true,
        Some(span) => {
            is_from(range.lo, span.least, number) && is_below(span.greatest, number, range.hi)
        }
    }
}

/// Whether a number with another added is not below a bound. A sum without room lies beyond all bounds.
fn is_from(bound: i64, member: i64, number: i32) -> bool
    ensures { IsTrue result ↔ (bound ≤ℤ (member +ℤ number)) }
{
    match member.checked_add(i64::from(number)) {
        Some(sum) => bound <= sum,
        None => is_positive(number),
    }
}

/// Whether a number with another added is below a bound.
fn is_below(member: i64, number: i32, bound: i64) -> bool
    ensures { IsTrue result ↔ ((member +ℤ number) <ℤ bound) }
{
    match member.checked_add(i64::from(number)) {
        Some(sum) => sum < bound,
        None => is_negative(number),
    }
}

fn is_positive(number: i32) -> bool
    ensures { IsTrue result ↔ (pos 0 <ℤ number) }
{
    0 < number
}

fn is_negative(number: i32) -> bool
    ensures { IsTrue result ↔ (number <ℤ pos 0) }
{
    number < 0
}

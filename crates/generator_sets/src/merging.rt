ghost use Rattle.std.specs.Prelude.{◌≡◌, ℕ, ◌<◌, ◌≢◌, ℤ, None, IfSome, IfOk, OnOk, length, set, get_or, true};
ghost use Rattle.sac_base.specs.declared.grid.Grid1.{Grid1};
ghost use Rattle.sac_base.specs.Grids.{has_index};
ghost use Rattle.generator_sets.specs.Unions.{IsUnion1, IsUnion, AreNeighbours, AreEqualBut, Part, IsAdded, IsMerged};

use sac_base::{Grid, Grid1, Memory};
use std::alloc::Global;

/// Two axes that have all numbers between their bounds, the second beginning where the first ends, as one.
fn joined_axis(a: &Grid1, b: &Grid1) -> Option<Grid1>
    ensures some { IfSome result (λ side. IsUnion1 a.now b.now side) }
    ensures none { result ≡ None → AreNeighbours a.now b.now → ⊥ }
{
    if a.step <= a.width && b.step <= b.width && a.lo <= a.hi && a.hi == b.lo && b.lo <= b.hi {
        Some(Grid1 {
            lo: a.lo,
            hi: b.hi,
            step: 1,
            width: 1,
        })
    } else {
        None
    }
}

/// Whether two axes are given by the same numbers.
fn is_same(a: &Grid1, b: &Grid1) -> bool
    ensures { result ≡ true → (x : ℤ) → has_index a.now x ≡ has_index b.now x }
{
    a.lo == b.lo && a.hi == b.hi && a.step == b.step && a.width == b.width
}

/// Whether the grids are the same on each axis but one.
fn are_equal_but(axis: usize, a: &[Grid1], b: &[Grid1]) -> bool
    ensures { result ≡ true → AreEqualBut axis a.now b.now }
{
    if a.len() != b.len() {
        return false;
    }
    for k in 0..a.len() {
        if k != axis && !is_same(&a[k], &b[k]) {
            return false;
        }
    }
    true
}

/// The axis that makes the second grid the union of both, where they differ on that axis alone and are neighbours on it.
fn joined(axis: usize, a: &[Grid1], b: &[Grid1]) -> Option<Grid1>
    ensures inside { IfSome result (λ side. axis < length b.now) }
    ensures union { IfSome result (λ side. IsUnion a.now b.now (set b.now axis side)) }
{
    if axis < a.len() && are_equal_but(axis, a, b) {
        joined_axis(&a[axis], &b[axis])
    } else {
        None
    }
}

/// The grid with another axis in the place of one of its own.
fn with_side(grid: Grid, axis: usize, side: Grid1) -> Grid
    requires { axis < length grid }
    ensures { result ≡ set grid axis side }
{
    let mut axes = grid.into_axes();
    axes[axis] = side;
    Grid::new(axes)
}

/// The first part of the list to which the part can be joined on the axis, and the axis of their union.
fn find_neighbour(
    axis: usize,
    part: &(Grid, Option<u64>),
    list: &[(Grid, Option<u64>)],
) -> Option<(usize, Grid1)>
    ensures place { IfSome result (λ found. found.0 < length list.now) }
    ensures inside { IfSome result (λ found. axis < length part.now.0) }
    ensures label { IfSome result (λ found. (d : Part) → (get_or list.now found.0 d).1 ≡ part.now.1) }
    ensures union { IfSome result (λ found. (d : Part) → IsUnion (get_or list.now found.0 d).0 part.now.0 (set part.now.0 axis found.1)) }
{
    for k in 0..list.len() {
        let other = &list[k];
        if other.1 == part.1 {
            if let Some(side) = joined(axis, other.0.axes(), part.0.axes()) {
                return Some((k, side));
            }
        }
    }
    None
}

/// Adds the part to the list, joined to a part of the list where one is its neighbour on the axis and has the same first generator.
fn add_part(
    axis: usize,
    part: (Grid, Option<u64>),
    list: &mut Vec<(Grid, Option<u64>)>,
) -> Result<(), Memory>
    ensures { OnOk result (IsAdded part list.old.items list.new.items) }
{
    match find_neighbour(axis, &part, list.as_slice()) {
        Some((k, side)) => {
            let (grid, first) = part;
            list[k] = (with_side(grid, axis, side), first);
        }
        None => list.push(part)?,
    }
    Ok(())
}

/// The parts, of which those are joined that have the same first generator and are neighbours on the axis.
fn merge_axis(
    alloc: Global,
    axis: usize,
    parts: Vec<(Grid, Option<u64>)>,
) -> Result<Vec<(Grid, Option<u64>)>, Memory>
    ensures { IfOk result (λ merged. IsMerged parts.items merged.items) }
{
    let mut merged = Vec::new(alloc);
    for part in parts {
        add_part(axis, part, &mut merged)?;
    }
    Ok(merged)
}

/// The parts, of which those are joined that have the same first generator and are neighbours on an axis: on the innermost axis first, so
/// that rows grow as long as they can.
pub(crate) fn merge_parts(
    alloc: Global,
    axes: usize,
    parts: Vec<(Grid, Option<u64>)>,
) -> Result<Vec<(Grid, Option<u64>)>, Memory>
    ensures { IfOk result (λ merged. IsMerged parts.items merged.items) }
{
    let mut merged = parts;
    let mut left = axes;
    while left > 0 {
        left -= 1;
        merged = merge_axis(alloc, left, merged)?;
    }
    Ok(merged)
}

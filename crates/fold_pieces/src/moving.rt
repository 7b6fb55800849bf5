//! Grids that are moved back by vectors.

ghost use Rattle.std.specs.Prelude.{◌≡◌, ◌++◌, [], ◌∷◌, ◌-ℤ◌, Ok, true, false, IfOk, IfSome, IfNone, map};
ghost use Rattle.std.specs.List.{All};
ghost use Rattle.core_loops.specs.Pairs.{moved_back, all_moved_back};
ghost use Rattle.fold_pieces.specs.Pieces.{axis_back, vectors, IsNear, IsNearAxis, AreNear};

use sac_base::{Grid, Grid1, Memory};
use std::alloc::Global;

/// A bound less a number, if that stays in 64 bits.
fn moved_bound(bound: i64, by: i32) -> Option<i64>
    ensures moved { IfSome result (λ moved. moved ≡ bound -ℤ by) }
    ensures far { IfNone result (IsNear bound → ⊥) }
{
    bound.checked_sub(i64::from(by))
}

/// An axis moved by minus a number, if its bounds stay in 64 bits.
fn moved_axis(axis: &Grid1, by: &i32) -> Option<Grid1>
    ensures moved { IfSome result (λ moved. moved ≡ axis_back by.now axis.now) }
    ensures far { IfNone result (IsNearAxis axis.now → ⊥) }
{
    match (moved_bound(axis.lo, *by), moved_bound(axis.hi, *by)) {
        (Some(lo), Some(hi)) => Some(with_bounds(*axis, lo, hi)),
        _ => None,
    }
}

fn with_bounds(axis: Grid1, lo: i64, hi: i64) -> Grid1
    ensures { result ≡ record axis { lo = lo; hi = hi } }
{
    let mut moved = axis;
    moved.lo = lo;
    moved.hi = hi;
    moved
}

/// Appends axes that are moved by minus the number at their place, up to the first whose bounds leave 64 bits. True exactly where there is none.
fn push_moved(axes: &[Grid1], by: &[i32], moved: &mut Vec<Grid1>) -> Result<bool, Memory>
    ensures moved { result ≡ Ok true → moved.new.items ≡ moved.old.items ++ moved_back by.now axes.now }
    ensures far { result ≡ Ok false → All IsNearAxis axes.now → ⊥ }
{
    let Some((number, numbers)) = by.split_first() else {
        moved.extend_from_slice(axes)?;
        return Ok(true);
    };
    let Some((axis, others)) = axes.split_first() else {
        return Ok(true);
    };
    match moved_axis(axis, number) {
        Some(axis) => {
            moved.push(axis)?;
            push_moved(others, numbers, moved)
        }
        None => Ok(false),
    }
}

/// A grid moved by minus a vector, if its bounds stay in 64 bits.
fn moved_grid(alloc: Global, grid: &Grid, by: &[i32]) -> Result<Option<Grid>, Memory>
    ensures moved { IfOk result (λ found. IfSome found (λ moved. moved ≡ moved_back by.now grid.now)) }
    ensures far { IfOk result (λ found. IfNone found (All IsNearAxis grid.now → ⊥)) }
{
    let mut axes = Vec::new(alloc);
    if push_moved(grid.axes(), by, &mut axes)? {
        Ok(Some(Grid::new(axes)))
    } else {
        Ok(None)
    }
}

/// Appends a grid moved by minus a vector, if its bounds stay in 64 bits.
fn push_grid(alloc: Global, by: &[i32], grid: &Grid, all: &mut Vec<Grid>) -> Result<bool, Memory>
    ensures moved { result ≡ Ok true → all.new.items ≡ all.old.items ++ moved_back by.now grid.now ∷ [] }
    ensures far { result ≡ Ok false → All IsNearAxis grid.now → ⊥ }
{
    match moved_grid(alloc, grid, by)? {
        Some(moved) => {
            all.push(moved)?;
            Ok(true)
        }
        None => Ok(false),
    }
}

/// Appends grids that are moved by minus a vector, up to the first whose bounds leave 64 bits. True exactly where there is none.
fn push_grids(
    alloc: Global,
    by: &[i32],
    grids: &[Grid],
    all: &mut Vec<Grid>,
) -> Result<bool, Memory>
    ensures moved { result ≡ Ok true → all.new.items ≡ all.old.items ++ map (moved_back by.now) grids.now }
    ensures far { result ≡ Ok false → AreNear grids.now → ⊥ }
{
    for grid in grids {
        if !push_grid(alloc, by, grid, all)? {
            return Ok(false);
        }
    }
    Ok(true)
}

fn just(alloc: Global, grid: &Grid) -> Result<Vec<Grid>, Memory>
    ensures { IfOk result (λ all. all.items ≡ grid.now ∷ []) }
{
    let mut all = Vec::new(alloc);
    all.push(grid.copy(alloc)?)?;
    Ok(all)
}

/// The grid of a part, and behind it the other grids moved by minus each vector, if their bounds stay in 64 bits.
pub fn cutting_grids(
    alloc: Global,
    grid: &Grid,
    offsets: &[Vec<i32>],
    grids: &[Grid],
) -> Result<Option<Vec<Grid>>, Memory>
    ensures moved { IfOk result (λ found. IfSome found (λ all. all.items ≡ grid.now ∷ all_moved_back (vectors offsets.now) grids.now)) }
    ensures far { IfOk result (λ found. IfNone found (AreNear grids.now → ⊥)) }
{
    let mut all = just(alloc, grid)?;
    for offset in offsets {
        if !push_grids(alloc, offset, grids, &mut all)? {
            return Ok(None);
        }
    }
    Ok(Some(all))
}

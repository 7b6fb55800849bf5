//! Which grid holds a piece that is moved.

ghost use Rattle.std.specs.Prelude.{◌≡◌, ◌+ℤ◌, IfOk, IfSome, IfNone, false, [], ◌∷◌};
ghost use Rattle.std.specs.List.{list_any};
ghost use Rattle.sac_base.specs.Grids.{has_index, has_vector};
ghost use Rattle.generator_sets.specs.Pieces.{lows, moved};
ghost use Rattle.fold_pieces.specs.Pieces.{vectors, is_held, HasFirst, HaveFirst};

use sac_base::{Grid, Grid1, Memory};
use std::alloc::Global;

/// Whether a number with another added is a member of an axis. A sum without room lies beyond all bounds.
fn has_sum(axis: Grid1, number: i64, by: i32) -> bool
    ensures { result ≡ has_index axis (number +ℤ by) }
{
    match number.checked_add(i64::from(by)) {
        Some(sum) => axis.has(sum),
        None => false,
    }
}

/// Whether the first member of an axis, with a number added, is a member of another.
fn has_moved(axis: &Grid1, first: &Grid1, by: &i32) -> bool
    ensures { result ≡ has_index axis.now (first.now.lo +ℤ by.now) }
{
    has_sum(*axis, first.lo, *by)
}

/// Whether the first member of an axis is a member of another.
fn has_first(axis: &Grid1, first: &Grid1) -> bool
    ensures { result ≡ has_index axis.now first.now.lo }
{
    axis.has(first.lo)
}

/// Whether axes have the first members of others.
fn have_lows(axes: &[Grid1], firsts: &[Grid1]) -> bool
    ensures { result ≡ has_vector axes.now (lows firsts.now) }
{
    match axes.split_first() {
        None => match firsts.split_first() {
            None => true,
            Some(_) => false,
        },
        Some((axis, inner)) => match firsts.split_first() {
            None => false,
            Some((first, later)) => has_first(axis, first) && have_lows(inner, later),
        },
    }
}

/// Whether axes have the first members of others, moved by a vector.
fn have_moved(axes: &[Grid1], firsts: &[Grid1], by: &[i32]) -> bool
    ensures { result ≡ has_vector axes.now (moved (lows firsts.now) by.now) }
{
    match axes.split_first() {
        None => match firsts.split_first() {
            None => true,
            Some(_) => false,
        },
        Some((axis, inner)) => match firsts.split_first() {
            None => false,
            Some((first, later)) => match by.split_first() {
                None => have_lows(axes, firsts),
                Some((number, numbers)) => {
                    has_moved(axis, first, number) && have_moved(inner, later, numbers)
                }
            },
        },
    }
}

/// Whether a grid has the first vector of a piece.
pub fn has_lows(grid: &Grid, piece: &Grid) -> bool
    ensures { result ≡ has_vector grid.now (lows piece.now) }
{
    have_lows(grid.axes(), piece.axes())
}

/// Whether a grid has the first vector of a piece, moved by a vector.
fn has_at(grid: &Grid, piece: &Grid, by: &[i32]) -> bool
    ensures { result ≡ has_vector grid.now (moved (lows piece.now) by.now) }
{
    have_moved(grid.axes(), piece.axes(), by)
}

/// The number of the first grid that has the first vector of a piece, moved by a vector.
fn holder(piece: &Grid, by: &[i32], grids: &[Grid]) -> Option<usize>
    ensures some { IfSome result (λ j. HasFirst grids.now (moved (lows piece.now) by.now) j) }
    ensures none { IfNone result (list_any (λ g. has_vector g (moved (lows piece.now) by.now)) grids.now ≡ false) }
{
    for j in 0..grids.len() {
        if has_at(&grids[j], piece, by) {
            return Some(j);
        }
    }
    None
}

/// For each vector the number of the first grid that has the first vector of a piece so moved, if there is one for each.
pub fn holders(
    alloc: Global,
    piece: &Grid,
    offsets: &[Vec<i32>],
    grids: &[Grid],
) -> Result<Option<Vec<usize>>, Memory>
    ensures some { IfOk result (λ found. IfSome found (λ js. HaveFirst grids.now (lows piece.now) (vectors offsets.now) js.items)) }
    ensures none { IfOk result (λ found. IfNone found (is_held grids.now (vectors offsets.now) (lows piece.now) ≡ false)) }
{
    let mut found = Vec::new(alloc);
    for offset in offsets {
        match holder(piece, offset, grids) {
            Some(j) => found.push(j)?,
            None => return Ok(None),
        }
    }
    Ok(Some(found))
}

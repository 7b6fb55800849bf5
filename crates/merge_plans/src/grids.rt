//! Grids joined with others, and compared number by number.

ghost use Rattle.std.specs.Prelude.{◌≡◌, ◌+◌, ◌≤◌, ◌++◌, ◌↔◌, IsTrue, IfOk, length};

use sac_base::{Grid, Grid1, Memory};
use std::alloc::Global;

/// The axes of one grid, followed by those of another.
///
/// # Errors
///
/// `Memory`: there is none for the list.
pub fn joined_grid(alloc: Global, outer: &Grid, inner: &Grid) -> Result<Grid, Memory>
    requires { length outer.now + length inner.now ≤ 8 }
    ensures { IfOk result (λ grid. grid ≡ outer.now ++ inner.now) }
{
    let mut axes = Vec::from_slice(alloc, outer.axes())?;
    axes.extend_from_slice(inner.axes())?;
    Ok(Grid::new(axes))
}

/// Whether axes are given by the same numbers.
pub fn same_axes(a: &[Grid1], b: &[Grid1]) -> bool
    ensures { IsTrue result ↔ (a.now ≡ b.now) }
{
    match a.split_first() {
        None => b.is_empty(),
        Some((axis, inner)) => match b.split_first() {
            None => false,
            Some((other, others)) => is_same(axis, other) && same_axes(inner, others),
        },
    }
}

#[tactic(auto, using(crate::proofs::Frames::same_axis))]
fn is_same(a: &Grid1, b: &Grid1) -> bool
    ensures { IsTrue result ↔ (a.now ≡ b.now) }
{
    a.lo == b.lo && a.hi == b.hi && a.step == b.step && a.width == b.width
}

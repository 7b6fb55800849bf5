//! What stands at the leaves of the trees.

ghost use Rattle.std.specs.Prelude.{◌≡◌, IsTrue};

use crate::lists::same_cells;
use core_ir::Var;
use sac_base::{Array, ArrayType, Part, Shape};

/// Whether there is twice the same variable, or twice none.
pub fn same_choice(a: Option<Var>, b: Option<Var>) -> bool
    ensures { IsTrue result → a ≡ b }
{
    match (a, b) {
        (Some(x), Some(y)) => x == y,
        (None, None) => true,
        _ => false,
    }
}

/// Whether two shapes have the same extents.
pub fn same_extents(a: &Shape, b: &Shape) -> bool
    ensures { IsTrue result → a.now ≡ b.now }
{
    same_cells(a.extents(), b.extents())
}

/// Whether two arrays have the same base, shape and cells.
pub fn same_array(a: &Array, b: &Array) -> bool
    ensures { IsTrue result → a.now ≡ b.now }
{
    a.base() == b.base() && same_extents(a.shape(), b.shape()) && same_cells(a.cells(), b.cells())
}

/// Whether two types are the same.
pub fn same_type(a: &ArrayType, b: &ArrayType) -> bool
    ensures { IsTrue result → a.now ≡ b.now }
{
    a.base == b.base && same_part(&a.part, &b.part)
}

fn same_part(a: &Part, b: &Part) -> bool
    ensures { IsTrue result → a.now ≡ b.now }
{
    match (a, b) {
        (Part::Known(x), Part::Known(y)) => same_extents(x, y),
        (Part::Rank(m), Part::Rank(n)) => *m == *n,
        (Part::Plus, Part::Plus) => true,
        (Part::Star, Part::Star) => true,
        _ => false,
    }
}

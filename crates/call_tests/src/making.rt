//! Grids of one axis, for the others.

ghost use Rattle.std.specs.Prelude.{◌≡◌, ◌∷◌, [], IfOk};

use sac_base::{Grid, Grid1, Memory};
use std::alloc::Global;

/// The numbers from 0 on and below 10.
pub const TEN: Grid1 = Grid1 {
    lo: 0,
    hi: 10,
    step: 1,
    width: 1,
};

/// The numbers from `lo` on and below `hi`.
pub fn all(lo: i64, hi: i64) -> Grid1 {
    Grid1 {
        lo,
        hi,
        step: 1,
        width: 1,
    }
}

/// A grid of one axis.
pub fn line(alloc: Global, axis: Grid1) -> Result<Grid, Memory>
    ensures { IfOk result (λ grid. grid ≡ axis ∷ []) }
{
    Ok(Grid::new(Vec::from_array(alloc, [axis])?))
}

/// The members below 64 of the pieces, one bit each; a bit that is met twice is left out.
pub fn members(pieces: &[Grid1]) -> u64 {
    let mut seen = 0;
    for piece in pieces {
        for x in 0..64u64 {
            if piece.has(x as i64) {
                seen ^= 1u64 << x;
            }
        }
    }
    seen
}

ghost use Rattle.std.specs.Prelude.{◌≡◌, position};
ghost use Rattle.sac_base.specs.Grids.{has_index, has_vector};
ghost use Rattle.generator_sets.specs.Pieces.{lows};

use sac_base::{Grid, Grid1};

/// Whether the grid has the number at which an axis of a piece begins.
fn has_low(axis: &Grid1, part: &Grid1) -> bool
    ensures { result ≡ has_index axis.now part.now.lo }
{
    axis.has(part.lo)
}

/// Whether the grid has the first vector of a piece.
pub(crate) fn has_first(grid: &[Grid1], piece: &[Grid1]) -> bool
    ensures { result ≡ has_vector grid.now (lows piece.now) }
{
    if grid.len() != piece.len() {
        return false;
    }
    for k in 0..grid.len() {
        if !has_low(&grid[k], &piece[k]) {
            return false;
        }
    }
    true
}

/// The first generator that has the first vector of a piece.
pub(crate) fn first_generator(piece: &[Grid1], generators: &[Grid]) -> Option<u64>
    ensures { result ≡ position (λ g. has_vector g (lows piece.now)) generators.now }
{
    for (index, generator) in generators.iter().enumerate() {
        if has_first(generator.axes(), piece) {
            return Some(index as u64);
        }
    }
    None
}

//! The grid of a part, cut by grids that are moved back.

ghost use Rattle.std.specs.Prelude.{ℕ, ◌≤◌, IfOk, IfSome, IfNone};
ghost use Rattle.generator_sets.specs.Counts.{IsCanonicalCount};
ghost use Rattle.fold_pieces.specs.Pieces.{vectors, AreNear};
ghost use Rattle.fold_pieces.specs.Cuts.{IsDense, IsCut, HasCut, IsUniformCut};

use crate::keeping::{FoldPiece, kept_pieces};
use crate::moving::cutting_grids;
use crate::within::{box_of, is_dense, is_inside};
use generator_sets::{GenError, uniform_pieces};
use sac_base::{Grid, Memory};
use std::alloc::Global;

/// The pieces of a part's grid.
#[derive(Drop)]
pub struct Cut {
    pub pieces: Vec<FoldPiece>,
    /// The canonical count, which also counts what is cut of the grid's box outside of the grid.
    pub count: usize,
}

/// A grid, cut so that each piece, moved by any of the vectors, lies as a whole in one of some grids. There is a cut exactly where each member of the grid,
/// moved by any vector, lies in the frame, and where the box of the grid, cut by the grid and by the grids moved back, has no period above 4,096 and a
/// canonical count of at most 64. A bound of these grids that leaves 64 bits when it is moved back gives no cut, which bounds within 2^62 of 0 never do.
///
/// # Errors
///
/// `Memory`: there is none for the pieces.
pub fn fold_pieces(
    alloc: Global,
    grid: &Grid,
    offsets: &[Vec<i32>],
    frame: &Grid,
    grids: &[Grid],
) -> Result<Option<Cut>, Memory>
    ensures cut { IfOk result (λ found. IfSome found (λ cut. IsCut frame.now grid.now grids.now (vectors offsets.now) cut.pieces.items cut.count)) }
    ensures none { IfOk result (λ found. IfNone found
        (IsDense frame.now → AreNear grids.now → HasCut frame.now grid.now grids.now (vectors offsets.now) → ⊥)) }
{
    if !is_dense(frame) {
        return Ok(None);
    }
    if !is_inside(grid, offsets, frame) {
        return Ok(None);
    }
    let Some(cutting) = cutting_grids(alloc, grid, offsets, grids)? else {
        return Ok(None);
    };
    let whole = box_of(alloc, grid)?;
    let Some(pieces) = few_pieces(alloc, &whole, &cutting)? else {
        return Ok(None);
    };
    let count = pieces.len();
    let kept = kept_pieces(alloc, &pieces, grid, offsets, grids)?;
    Ok(Some(Cut {
        pieces: kept,
        count,
    }))
}

/// The box of a frame as uniform pieces, if no period is above 4,096 and they are at most 64.
fn few_pieces(alloc: Global, frame: &Grid, generators: &[Grid]) -> Result<Option<Vec<Grid>>, Memory>
    ensures few { IfOk result (λ found. IfSome found (λ pieces. IsUniformCut generators.now frame.now pieces.items)) }
    ensures none { IfOk result (λ found. IfNone found ((greatest count : ℕ) → IsCanonicalCount generators.now 0 frame.now greatest count
        → greatest ≤ 4096 → count ≤ 64 → ⊥)) }
{
    match uniform_pieces(alloc, frame, generators) {
        Ok(pieces) => Ok(Some(pieces)),
        Err(GenError::Memory) => Err(Memory),
        Err(GenError::TooMany) => Ok(None),
        Err(GenError::TooFine) => Ok(None),
    }
}

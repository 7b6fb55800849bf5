//! Pieces that lie in a part's grid, and what holds them.

ghost use Rattle.std.specs.Prelude.{◌≡◌, ◌++◌, [], ◌∷◌, true, false, OnOk, IfOk, IfSome, IfNone, filter, map};
ghost use Rattle.std.specs.List.{All};
ghost use Rattle.generator_sets.specs.Pieces.{lows};
ghost use Rattle.fold_pieces.specs.Kept.{grids_in};
ghost use Rattle.fold_pieces.specs.Pieces.{vectors, is_kept, HaveFirst};

use crate::holding::{has_lows, holders};
use sac_base::{Grid, Memory};
use std::alloc::Global;

/// A piece of a part's grid.
#[derive(Drop)]
pub struct FoldPiece {
    pub grid: Grid,
    /// For each vector the number of the grid that has the piece so moved.
    pub holders: Vec<usize>,
}

/// The pieces whose first vector lies in the grid, and, moved by any vector, in one of the grids.
pub fn kept_pieces(
    alloc: Global,
    pieces: &[Grid],
    grid: &Grid,
    offsets: &[Vec<i32>],
    grids: &[Grid],
) -> Result<Vec<FoldPiece>, Memory>
    ensures grids { IfOk result (λ found. grids_in found.items ≡ filter (is_kept grid.now grids.now (vectors offsets.now)) pieces.now) }
    ensures holders { IfOk result (λ found. All (λ (p : FoldPiece). HaveFirst grids.now (lows p.grid) (vectors offsets.now) p.holders.items) found.items) }
{
    let mut found = Vec::new(alloc);
    for piece in pieces {
        push_kept(alloc, piece, grid, offsets, grids, &mut found)?;
    }
    Ok(found)
}

/// Appends a piece with its holders, if it is kept.
fn push_kept(
    alloc: Global,
    piece: &Grid,
    grid: &Grid,
    offsets: &[Vec<i32>],
    grids: &[Grid],
    found: &mut Vec<FoldPiece>,
) -> Result<(), Memory>
    ensures grids { OnOk result (grids_in found.new.items
        ≡ grids_in found.old.items ++ filter (is_kept grid.now grids.now (vectors offsets.now)) (piece.now ∷ [])) }
    ensures holders { OnOk result (All (λ (p : FoldPiece). HaveFirst grids.now (lows p.grid) (vectors offsets.now) p.holders.items) found.old.items
        → All (λ (p : FoldPiece). HaveFirst grids.now (lows p.grid) (vectors offsets.now) p.holders.items) found.new.items) }
{
    match kept_piece(alloc, piece, grid, offsets, grids)? {
        Some(kept) => {
            found.push(kept)?;
            Ok(())
        }
        None => Ok(()),
    }
}

/// A piece with its holders, if it is kept.
fn kept_piece(
    alloc: Global,
    piece: &Grid,
    grid: &Grid,
    offsets: &[Vec<i32>],
    grids: &[Grid],
) -> Result<Option<FoldPiece>, Memory>
    ensures some { IfOk result (λ found. IfSome found (λ p. (p.grid ≡ piece.now) × (is_kept grid.now grids.now (vectors offsets.now) piece.now ≡ true)
        × HaveFirst grids.now (lows piece.now) (vectors offsets.now) p.holders.items)) }
    ensures none { IfOk result (λ found. IfNone found (is_kept grid.now grids.now (vectors offsets.now) piece.now ≡ false)) }
{
    if !has_lows(grid, piece) {
        return Ok(None);
    }
    match holders(alloc, piece, offsets, grids)? {
        Some(numbers) => Ok(Some(FoldPiece {
            grid: piece.copy(alloc)?,
            holders: numbers,
        })),
        None => Ok(None),
    }
}

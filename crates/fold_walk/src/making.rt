//! The parts that a consumer gets.

ghost use Rattle.std.specs.Prelude.{◌≡◌, ◌≤◌, ◌<◌, ◌++◌, [], ◌∷◌, true, false, IfOk, OnOk, filter, length, map};
ghost use Rattle.sac_base.specs.Grids.{has_vector};
ghost use Rattle.generator_sets.specs.Pieces.{lows};
ghost use Rattle.core_ir.specs.View.{part_term};
ghost use Rattle.fold_walk.specs.fold_laws.Made.{due_pieces as pieces_due, has_members as have_members, numbered_grid, numbered_grids};
ghost use Rattle.fold_walk.specs.Making.{AllDue, AllMade, piece_count};

use core_ir::{CorePart, Var};
use core_uses::avoids;
use fold_pieces::FoldPiece;
use foldable_pairs::{PartPlan, Producer};
use folded_parts::folded_pieces;
use parted_bodies::Progress;
use sac_base::{Grid, Memory};
use std::alloc::Global;

/// The most parts of a consumer.
const MOST_PARTS: usize = 64;

/// A piece, and the number of a part of the producer for each selection.
type Piece = (Grid, Vec<usize>);

/// The pieces that become parts, for each part of a consumer.
///
/// # Errors
///
/// `Memory`: there is none for the pieces.
pub fn all_pieces(
    alloc: Global,
    producer: Var,
    parts: &[CorePart],
    plans: Vec<PartPlan>,
) -> Result<Vec<Vec<Piece>>, Memory>
    requires { length parts.now ≡ length plans.items }
    ensures { IfOk result (λ pieces. AllDue producer (map part_term parts.now) plans.items pieces.items) }
{
    let mut all = Vec::new(alloc);
    let mut plans = plans.into_iter();
    for part in parts {
        if let Some(plan) = plans.next() {
            all.push(due_pieces(alloc, producer, part, plan)?)?;
        }
    }
    Ok(all)
}

/// The pieces of a part that become parts: one, if it does not use the producer, and else those that have members.
fn due_pieces(
    alloc: Global,
    producer: Var,
    part: &CorePart,
    plan: PartPlan,
) -> Result<Vec<Piece>, Memory>
    ensures { IfOk result (λ pieces. numbered_grids pieces.items ≡ pieces_due producer (part_term part.now) plan) }
{
    if avoids(producer, &part.body) {
        whole_piece(alloc, part)
    } else {
        kept_pieces(alloc, plan.pieces)
    }
}

fn whole_piece(alloc: Global, part: &CorePart) -> Result<Vec<Piece>, Memory>
    ensures { IfOk result (λ pieces. numbered_grids pieces.items ≡ ((part_term part.now).head.grid, []) ∷ []) }
{
    let mut pieces = Vec::new(alloc);
    pieces.push((part.grid.copy(alloc)?, Vec::new(alloc)))?;
    Ok(pieces)
}

/// The pieces that have members.
fn kept_pieces(alloc: Global, pieces: Vec<FoldPiece>) -> Result<Vec<Piece>, Memory>
    ensures { IfOk result (λ kept. numbered_grids kept.items ≡ map numbered_grid (filter have_members pieces.items)) }
{
    let mut kept = Vec::new(alloc);
    for piece in pieces {
        push_piece(piece, &mut kept)?;
    }
    Ok(kept)
}

fn push_piece(piece: FoldPiece, kept: &mut Vec<Piece>) -> Result<(), Memory>
    ensures { OnOk result (numbered_grids kept.new.items ≡ numbered_grids kept.old.items ++ map numbered_grid (filter have_members (piece ∷ []))) }
{
    if has_members(&piece.grid) {
        let FoldPiece { grid, holders } = piece;
        kept.push((grid, holders))?;
    }
    Ok(())
}

/// Whether a grid has its first vector.
fn has_members(grid: &Grid) -> bool
    ensures { result ≡ has_vector grid.now (lows grid.now) }
{
    for axis in grid.axes() {
        if !axis.has(axis.lo) {
            return false;
        }
    }
    true
}

/// Whether there are few enough pieces in all.
pub fn are_few(pieces: &[Vec<Piece>]) -> bool
    ensures few { result ≡ true → piece_count pieces.now ≤ 64 }
    ensures many { result ≡ false → 64 < piece_count pieces.now }
{
    let mut count = 0;
    for of_part in pieces {
        count += of_part.len();
        if count > MOST_PARTS {
            return false;
        }
    }
    true
}

/// The parts for all pieces, with copies of the producer's parts in their bodies.
///
/// # Errors
///
/// `Memory`: there is none for the parts, or the numbers of variables have more than 32 bits.
pub fn all_parts(
    alloc: Global,
    producer: &Producer<'_>,
    parts: &[CorePart],
    pieces: Vec<Vec<Piece>>,
    progress: &mut Progress,
) -> Result<Vec<CorePart>, Memory>
    requires { length parts.now ≡ length pieces.items }
    ensures { IfOk result (λ new. AllMade producer.now.var (map part_term producer.now.parts.now) (map part_term parts.now) pieces.items
        progress.old.next (map part_term new.items) progress.new.next) }
{
    let mut all = Vec::new(alloc);
    let mut pieces = pieces.into_iter();
    for part in parts {
        if let Some(of_part) = pieces.next() {
            let mut new = folded_pieces(
                alloc,
                part,
                of_part,
                producer.var,
                producer.parts,
                progress,
            )?;
            all.append(&mut new)?;
        }
    }
    Ok(all)
}

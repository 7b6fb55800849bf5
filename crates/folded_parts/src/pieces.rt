//! The part of a piece of a consumer's part.

ghost use Rattle.std.specs.Prelude.{◌≡◌, ℕ, IfOk, map};
ghost use Rattle.core_ir.specs.View.{block_term, part_term};
ghost use Rattle.folded_parts.specs.Folding.{BlockFolded};
ghost use Rattle.folded_parts.specs.Making.{PieceMade, PiecesMade};

use crate::folding::fold_block;
use crate::renaming::renamed;
use crate::taking::Source;
use core_ir::{Block, CorePart, Var, copy_block};
use parted_bodies::Progress;
use sac_base::{Grid, Memory, Site};
use std::alloc::Global;

/// The part of a consumer for one piece of the grid of an old part: its body, in which the bindings of the producer's parts stand for selections from the
/// producer. All variables that it binds are new.
///
/// # Errors
///
/// `Memory`: there is none for the part, or the numbers of variables have more than 32 bits.
pub fn folded_part(
    alloc: Global,
    old: &CorePart,
    grid: Grid,
    source: &Source<'_>,
    progress: &mut Progress,
) -> Result<CorePart, Memory>
    ensures { IfOk result (λ new. PieceMade source.now.producer (map part_term source.now.parts.now) source.now.holders.now (part_term old.now) grid
        progress.old.next (part_term new) progress.new.next) }
{
    let body = folded_body(alloc, &old.body, source, progress)?;
    let index = progress.take()?;
    let body = renamed(alloc, &body, old.index, index, progress)?;
    Ok(part_of(grid, index, body, old.site))
}

/// A copy of a body in which the bindings of the producer's parts stand for selections from the producer.
fn folded_body(
    alloc: Global,
    body: &Block,
    source: &Source<'_>,
    progress: &mut Progress,
) -> Result<Block, Memory>
    ensures { IfOk result (λ new. (passed : ℕ) × BlockFolded source.now.producer (map part_term source.now.parts.now) source.now.holders.now
        0 progress.old.next (block_term body.now) (block_term new) passed progress.new.next) }
{
    let mut passed = 0;
    let whole = copy_block(alloc, body)?;
    let folded = fold_block(alloc, whole, source, &mut passed, progress)?;
    Ok(folded)
}

fn part_of(grid: Grid, index: Var, body: Block, site: Site) -> CorePart
    ensures { part_term result ≡ record { head = record { grid = grid; index = index; site = site }; body = block_term body } }
{
    CorePart {
        grid,
        index,
        body,
        site,
    }
}

/// The parts of a consumer for all pieces of an old part. Each piece has the number of a part of the producer for each selection.
///
/// # Errors
///
/// `Memory`: there is none for the parts, or the numbers of variables have more than 32 bits.
pub fn folded_pieces(
    alloc: Global,
    old: &CorePart,
    pieces: Vec<(Grid, Vec<usize>)>,
    producer: Var,
    parts: &[CorePart],
    progress: &mut Progress,
) -> Result<Vec<CorePart>, Memory>
    ensures { IfOk result (λ made. PiecesMade producer (map part_term parts.now) (part_term old.now) pieces.items progress.old.next (map part_term made.items)
        progress.new.next) }
{
    let mut made = Vec::new(alloc);
    for (grid, holders) in pieces {
        let source = Source {
            producer,
            parts,
            holders: &holders,
        };
        made.push(folded_part(alloc, old, grid, &source, progress)?)?;
    }
    Ok(made)
}

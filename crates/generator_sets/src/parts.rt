ghost use Rattle.std.specs.Prelude.{◌≡◌, ℕ, ◌≤◌, pos, length, map, position, IfOk};
ghost use Rattle.std.specs.List.{All};
ghost use Rattle.sac_base.specs.Grids.{has_vector, SplitsVectors};
ghost use Rattle.generator_sets.specs.Pieces.{lows};
ghost use Rattle.generator_sets.specs.Counts.{IsCanonicalCount, IsDue};
ghost use Rattle.generator_sets.specs.Unions.{NamesFirst};

use crate::cut::cut;
use crate::error::GenError;
use crate::first::first_generator;
use crate::merging::merge_parts;
use grid_sets::FINEST;
use sac_base::{Grid, Memory};
use std::alloc::Global;

/// Disjoint grids, each with the first generator that contains its members, or None where no generator does.
#[derive(Debug, Drop)]
pub struct Parts {
    pub parts: Vec<(Grid, Option<u64>)>,
}

/// Each piece with the first generator that has its first vector.
fn label(alloc: Global, pieces: Vec<Grid>, generators: &[Grid]) -> Result<Parts, Memory>
    ensures { IfOk result (λ parts. parts.parts.items ≡ map (λ p. (p, position (λ g. has_vector g (lows p)) generators.now)) pieces.items) }
{
    let mut parts = Vec::new(alloc);
    for piece in pieces {
        let first = first_generator(piece.axes(), generators);
        parts.push((piece, first))?;
    }
    Ok(Parts { parts })
}

/// The frame as at most 64 disjoint grids, each with the first generator that contains its members. Grids that are neighbours on one axis and
/// have the same first generator are joined, so an inner generator of n axes leaves 2 n + 1 grids and not 3 to the n.
pub fn partition(alloc: Global, frame: &Grid, generators: &[Grid]) -> Result<Parts, GenError>
    requires axes { All (λ g. length g ≡ length frame.now) generators.now }
    requires unit { All (λ axis. axis.step ≡ pos 1) frame.now }
    ensures cover { IfOk result (λ parts. SplitsVectors (map (λ part. part.0) parts.parts.items) (has_vector frame.now)) }
    ensures first { IfOk result (λ parts. All (NamesFirst generators.now) parts.parts.items) }
    ensures few { IfOk result (λ parts. length parts.parts.items ≤ 64) }
    ensures due { (greatest count : ℕ) → IsCanonicalCount generators.now 0 frame.now greatest count → IsDue 4096 greatest count result }
{
    match cut(alloc, frame, generators, FINEST) {
        Ok(pieces) => {
            let labelled = label(alloc, pieces, generators)?;
            let parts = merge_parts(alloc, frame.axes().len(), labelled.parts)?;
            Ok(Parts { parts })
        }
        Err(error) => Err(error),
    }
}

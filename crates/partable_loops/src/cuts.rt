//! A frame, cut into grids by generators.

ghost use Rattle.std.specs.Prelude.{◌≡◌, ◌≤◌, ◌⊎◌, ◌↔◌, IsTrue, IfOk, ℕ, pos, [], length, map, filter, is_some, Option};
ghost use Rattle.std.specs.List.{All};
ghost use Rattle.sac_base.specs.Grids.{SplitsVectors, has_vector};
ghost use Rattle.core_loops.specs.norm.Norm.{NameFirst};
ghost use Rattle.generator_sets.specs.Counts.{IsCanonicalCount};
ghost use Rattle.partable_loops.specs.Framings.{IsVoid};
ghost use Rattle.partable_loops.specs.Planned.{CoversHeld, Label};
ghost use Rattle.partable_loops.specs.Refused.{Decides};

use crate::refusal::Unplanned;
use generator_sets::{GenError, partition};
use sac_base::Grid;
use std::alloc::Global;

/// The frame as disjoint grids, each with the first generator that has its members, or none. A frame without an index has no grid, whatever the
/// generators are.
pub fn cut(
    alloc: Global,
    frame: &Grid,
    generators: &[Grid],
) -> Result<Vec<(Grid, Option<u64>)>, Unplanned>
    requires dense { All (λ axis. axis.step ≡ pos 1) frame.now }
    requires ranks { All (λ g. length g ≡ length frame.now) generators.now ⊎ IsVoid frame.now }
    ensures due { (greatest count : ℕ) → IsCanonicalCount generators.now 0 frame.now greatest count
        → Decides result (λ _. (greatest ≤ 4096) × (count ≤ 64)) ((greatest ≤ 4096) × (count ≤ 64)) }
    ensures splits { IfOk result (λ parts. SplitsVectors (map (λ (p : Label). p.0) parts.items) (has_vector frame.now)) }
    ensures few { IfOk result (λ parts. length parts.items ≤ 64) }
    ensures same { IfOk result (λ parts. All (λ g. length g ≡ length frame.now) generators.now ⊎ (parts.items ≡ [])) }
    ensures first { IfOk result (λ parts. NameFirst generators.now parts.items) }
{
    if !have_axes(generators, frame.axes().len()) {
        return Ok(Vec::new(alloc));
    }
    match partition(alloc, frame, generators) {
        Ok(parts) => Ok(parts.parts),
        Err(GenError::Memory) => Err(Unplanned::Memory),
        Err(_) => Err(Unplanned::NotPartable),
    }
}

fn have_axes(grids: &[Grid], axes: usize) -> bool
    ensures { IsTrue result ↔ All (λ g. length g ≡ axes) grids.now }
{
    for grid in grids {
        if grid.axes().len() != axes {
            return false;
        }
    }
    true
}

/// The grids that some generator has.
pub fn held(parts: Vec<(Grid, Option<u64>)>) -> Vec<(Grid, Option<u64>)>
    ensures { result.items ≡ filter (λ (p : Label). is_some p.1) parts.items }
{
    let mut parts = parts;
    parts.retain(|part| part.1.is_some());
    parts
}

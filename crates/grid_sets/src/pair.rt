ghost use Rattle.std.specs.Prelude.{◌≡◌, ◌↔◌, IsTrue, IfOk, ℕ, ◌<◌, ◌≤◌, ◌&&◌, not, Err, true, false, ◌∷◌, []};
ghost use Rattle.std.specs.List.{All};
ghost use Rattle.sac_base.specs.Grids.{has_index, within, Splits};
ghost use Rattle.grid_sets.specs.Segments.{IsUniform, steps_of};
ghost use Rattle.grid_sets.specs.Periods.{IsCommonPeriod, overlap};

use crate::axis::axis_runs;
use crate::period::{COARSEST, least_multiple, step_of};
use crate::segment::Segment;
use sac_base::Grid1;
use std::alloc::Global;

/// Why there are no pieces.
#[derive(Clone, Copy, Debug, PartialEq, Eq)]
pub enum GridError {
    /// A period is above the limit: 4,096 for the common period of two grids.
    TooFine,
    /// No memory was found.
    Memory,
}

/// Whether some number lies between the bounds of both.
fn is_overlap(a: &Grid1, b: &Grid1) -> bool
    ensures { result ≡ overlap a.now b.now }
{
    if a.lo < b.lo {
        b.lo < a.hi && b.lo < b.hi
    } else {
        a.lo < a.hi && a.lo < b.hi
    }
}

/// Whether the common period is above 4,096: the least common multiple of the steps where the ranges overlap, and else 1.
pub fn is_too_fine(a: &Grid1, b: &Grid1) -> bool
    ensures fine { (p : ℕ) → IsCommonPeriod a.now b.now p → IsTrue result ↔ (4096 < p) }
    ensures coarse { result ≡ false → (p : ℕ) × IsCommonPeriod a.now b.now p × (p ≤ 4096) }
    ensures first_fits { steps_of a.now ≤ COARSEST }
    ensures second_fits { steps_of b.now ≤ COARSEST }
{
    let first = step_of(a);
    let second = step_of(b);
    is_overlap(a, b) && least_multiple(first, second).is_none()
}

/// The first grid's range as runs of neighbours that belong to the same grids.
fn pair_runs(alloc: Global, a: &Grid1, b: &Grid1) -> Result<Vec<Grid1>, GridError>
    ensures split { IfOk result (λ pieces. Splits pieces.items (within a.now.lo a.now.hi)) }
    ensures uniform { IfOk result (λ pieces. All (IsUniform (a.now ∷ b.now ∷ [])) pieces.items) }
    ensures fine { (p : ℕ) → IsCommonPeriod a.now b.now p → (result ≡ Err GridError.TooFine) ↔ (4096 < p) }
{
    if is_too_fine(a, b) {
        return Err(GridError::TooFine);
    }
    let range = Segment {
        from: a.lo,
        to: a.hi,
    };
    axis_runs(alloc, &range, &[*a, *b], COARSEST)
}

/// Disjoint grids whose members are exactly those of both.
pub fn meet1(alloc: Global, a: &Grid1, b: &Grid1) -> Result<Vec<Grid1>, GridError>
    ensures members { IfOk result (λ pieces. Splits pieces.items (λ x. has_index a.now x && has_index b.now x)) }
    ensures fine { (p : ℕ) → IsCommonPeriod a.now b.now p → (result ≡ Err GridError.TooFine) ↔ (4096 < p) }
{
    match pair_runs(alloc, a, b) {
        Ok(mut pieces) => {
            pieces.retain(|piece| a.has(piece.lo) && b.has(piece.lo));
            Ok(pieces)
        }
        Err(error) => Err(error),
    }
}

/// Disjoint grids whose members are exactly those of the first that are not in the second.
pub fn minus1(alloc: Global, a: &Grid1, b: &Grid1) -> Result<Vec<Grid1>, GridError>
    ensures members { IfOk result (λ pieces. Splits pieces.items (λ x. has_index a.now x && not (has_index b.now x))) }
    ensures fine { (p : ℕ) → IsCommonPeriod a.now b.now p → (result ≡ Err GridError.TooFine) ↔ (4096 < p) }
{
    match pair_runs(alloc, a, b) {
        Ok(mut pieces) => {
            pieces.retain(|piece| a.has(piece.lo) && !b.has(piece.lo));
            Ok(pieces)
        }
        Err(error) => Err(error),
    }
}

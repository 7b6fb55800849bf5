ghost use Rattle.std.specs.Prelude.{◌≡◌, ◌↔◌, ◌≢◌, IsTrue, ℕ, ◌<◌, ◌≤◌, ◌&&◌, not, length, IfOk, Err, List, ℤ, ◌∷◌, [], false};
ghost use Rattle.std.specs.List.{All, Any};
ghost use Rattle.sac_base.specs.Grids.{has_vector, SplitsVectors};
ghost use Rattle.grid_sets.specs.Segments.{IsTooFine};
ghost use Rattle.generator_sets.specs.Pieces.{axis_grids, in_box, IsUniformVector};
ghost use Rattle.generator_sets.specs.Counts.{IsCanonicalCount, IsManyWhere, CommonPeriods};

use crate::cut::cut;
use crate::error::GenError;
use crate::first::has_first;
use grid_sets::COARSEST;
use sac_base::{Grid, Memory};
use std::alloc::Global;

/// Whether some axis has a common period above 4,096.
fn is_too_fine(a: &Grid, b: &Grid) -> bool
    requires { length b.now ≡ length a.now }
    ensures fine { (periods : List ℕ) → CommonPeriods a.now b.now periods → IsTrue result ↔ Any (λ p. 4096 < p) periods }
    ensures coarse { result ≡ false → (k : ℕ) → k < length a.now → IsTooFine COARSEST (axis_grids k (a.now ∷ b.now ∷ [])) → ⊥ }
{
    let first = a.axes();
    let second = b.axes();
    for k in 0..first.len() {
        if grid_sets::is_too_fine(&first[k], &second[k]) {
            return true;
        }
    }
    false
}

/// The first grid's box, cut into pieces that lie as a whole in each of the two grids or outside it.
fn pieces_of_both(alloc: Global, a: &Grid, b: &Grid) -> Result<Vec<Grid>, GenError>
    requires { length b.now ≡ length a.now }
    ensures split { IfOk result (λ pieces. SplitsVectors pieces.items (in_box a.now)) }
    ensures uniform { IfOk result (λ pieces. All (IsUniformVector (a.now ∷ b.now ∷ [])) pieces.items) }
    ensures fine { (periods : List ℕ) → CommonPeriods a.now b.now periods → (result ≡ Err GenError.TooFine) ↔ Any (λ p. 4096 < p) periods }
    ensures many { (greatest count : ℕ) → IsCanonicalCount (a.now ∷ b.now ∷ []) 0 a.now greatest count → IsManyWhere count result }
{
    if is_too_fine(a, b) {
        return Err(GenError::TooFine);
    }
    let both = [a.copy(alloc)?, b.copy(alloc)?];
    cut(alloc, a, &both, COARSEST)
}

/// Disjoint grids whose members are exactly those of both.
pub fn meet(alloc: Global, a: &Grid, b: &Grid) -> Result<Vec<Grid>, GenError>
    requires { length b.now ≡ length a.now }
    ensures members { IfOk result (λ pieces. SplitsVectors pieces.items (λ v. has_vector a.now v && has_vector b.now v)) }
    ensures fine { (periods : List ℕ) → CommonPeriods a.now b.now periods → (result ≡ Err GenError.TooFine) ↔ Any (λ p. 4096 < p) periods }
    ensures many { (greatest count : ℕ) → IsCanonicalCount (a.now ∷ b.now ∷ []) 0 a.now greatest count → IsManyWhere count result }
{
    match pieces_of_both(alloc, a, b) {
        Ok(mut pieces) => {
            pieces.retain(|piece| {
                has_first(a.axes(), piece.axes()) && has_first(b.axes(), piece.axes())
            });
            Ok(pieces)
        }
        Err(error) => Err(error),
    }
}

/// Disjoint grids whose members are exactly those of the first that are not in the second.
pub fn minus(alloc: Global, a: &Grid, b: &Grid) -> Result<Vec<Grid>, GenError>
    requires { length b.now ≡ length a.now }
    ensures members { IfOk result (λ pieces. SplitsVectors pieces.items (λ v. has_vector a.now v && not (has_vector b.now v))) }
    ensures fine { (periods : List ℕ) → CommonPeriods a.now b.now periods → (result ≡ Err GenError.TooFine) ↔ Any (λ p. 4096 < p) periods }
    ensures many { (greatest count : ℕ) → IsCanonicalCount (a.now ∷ b.now ∷ []) 0 a.now greatest count → IsManyWhere count result }
{
    match pieces_of_both(alloc, a, b) {
        Ok(mut pieces) => {
            pieces.retain(|piece| {
                has_first(a.axes(), piece.axes()) && !has_first(b.axes(), piece.axes())
            });
            Ok(pieces)
        }
        Err(error) => Err(error),
    }
}

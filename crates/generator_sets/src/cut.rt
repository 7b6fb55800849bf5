ghost use Rattle.std.specs.Prelude.{◌≡◌, ℕ, ◌*◌, ◌<◌, ◌≤◌, ◌^◌, ◌≢◌, ◌∷◌, [], ◌++◌, min, length, IfOk, OnOk, Err, option_to_list, slice_get};
ghost use Rattle.std.specs.List.{All};
ghost use Rattle.sac_base.specs.Grids.{within, Splits, SplitsVectors};
ghost use Rattle.grid_sets.specs.Segments.{IsUniform, IsAxisCount, HasRuns, IsTooFine};
ghost use Rattle.generator_sets.specs.Pieces.{in_box, IsUniformVector, axis_grids, products};
ghost use Rattle.generator_sets.specs.Counts.{IsCanonicalCount, IsDue};

use crate::error::GenError;
use crate::product::cross;
use grid_sets::{FINEST, GridError, Segment, axis_runs};
use sac_base::{Grid, Grid1, Memory};
use std::alloc::Global;

/// The most grids that a frame is cut into.
pub const MOST: u64 = 64;

/// The generators' grids of one axis, of those generators that have this axis.
fn axis_of(alloc: Global, generators: &[Grid], axis: usize) -> Result<Vec<Grid1>, Memory>
    ensures { IfOk result (λ grids. grids.items ≡ axis_grids axis generators.now) }
{
    let mut grids = Vec::new(alloc);
    for generator in generators {
        push_axis(&mut grids, generator, axis)?;
    }
    Ok(grids)
}

/// Appends the generator's grid of an axis, if it has this axis.
fn push_axis(grids: &mut Vec<Grid1>, generator: &Grid, axis: usize) -> Result<(), Memory>
    ensures { OnOk result (grids.new.items ≡ grids.old.items ++ option_to_list (slice_get generator.now axis)) }
{
    match generator.axes().get(axis) {
        Some(grid) => {
            grids.push(*grid)?;
            Ok(())
        }
        None => Ok(()),
    }
}

/// An axis of the frame as runs of neighbours that belong to the same generators.
fn runs_of_axis(
    alloc: Global,
    axis: &Grid1,
    grids: &[Grid1],
    limit: u64,
) -> Result<Vec<Grid1>, GenError>
    requires { limit < 2 ^ 63 }
    ensures split { IfOk result (λ runs. Splits runs.items (within axis.now.lo axis.now.hi)) }
    ensures uniform { IfOk result (λ runs. All (IsUniform grids.now) runs.items) }
    ensures count { HasRuns grids.now axis.now.lo axis.now.hi limit result }
    ensures fine { (greatest runs : ℕ) → IsAxisCount grids.now axis.now.hi axis.now.lo greatest runs → result ≡ Err GenError.TooFine → limit < greatest }
    ensures too_fine { result ≡ Err GenError.TooFine → IsTooFine limit grids.now }
    ensures few { result ≢ Err GenError.TooMany }
{
    let range = Segment {
        from: axis.lo,
        to: axis.hi,
    };
    match axis_runs(alloc, &range, grids, limit) {
        Ok(runs) => Ok(runs),
        Err(GridError::TooFine) => Err(GenError::TooFine),
        Err(GridError::Memory) => Err(GenError::Memory),
    }
}

/// The product, and 65 in place of what is above.
fn product_to_65(runs: usize, count: u64) -> u64
    requires { count ≤ 65 }
    ensures { result ≡ min (runs * count) 65 }
{
    if runs == 0 || count == 0 {
        0
    } else if runs > 64 {
        65
    } else {
        (runs as u64 * count).min(65)
    }
}

/// What is cut of a frame's last axes: the grids, and how many there are. Where there are more than 64 the count is 65, and no grid is kept.
#[derive(Drop)]
struct Pieces {
    grids: Vec<Grid>,
    count: u64,
}

/// Of no axis there is one grid.
fn no_axes(alloc: Global) -> Result<Pieces, Memory>
    ensures grids { IfOk result (λ pieces. pieces.grids.items ≡ [] ∷ []) }
    ensures count { IfOk result (λ pieces. pieces.count ≡ 1) }
{
    let mut grids = Vec::new(alloc);
    grids.push(Grid::new(Vec::new(alloc)))?;
    Ok(Pieces { grids, count: 1 })
}

/// One more axis, as runs.
fn with_axis(alloc: Global, runs: &[Grid1], rest: &Pieces) -> Result<Pieces, Memory>
    requires short { All (λ g. length g < 8) rest.now.grids.items }
    requires most { rest.now.count ≤ 65 }
    ensures count { IfOk result (λ pieces. pieces.count ≡ min (length runs.now * rest.now.count) 65) }
    ensures grids { IfOk result (λ pieces. pieces.count ≤ 64 → pieces.grids.items ≡ products runs.now rest.now.grids.items) }
    ensures none { IfOk result (λ pieces. 64 < pieces.count → pieces.grids.items ≡ []) }
{
    let count = product_to_65(runs.len(), rest.count);
    let grids = if count > MOST {
        Vec::new(alloc)
    } else {
        cross(alloc, runs, rest.grids.as_slice())?
    };
    Ok(Pieces { grids, count })
}

/// The box of a frame as products of its axes' runs: disjoint pieces, each of which lies as a whole in a generator or outside of it, as many as the
/// canonical count of the frame and the generators. A generator may have another number of axes than the frame.
///
/// # Errors
///
/// `TooFine`: a segment's period is above 4,096. `TooMany`: the canonical count is above 64. `Memory`: there is none for a grid.
pub fn uniform_pieces(
    alloc: Global,
    frame: &Grid,
    generators: &[Grid],
) -> Result<Vec<Grid>, GenError>
    ensures split { IfOk result (λ pieces. SplitsVectors pieces.items (in_box frame.now)) }
    ensures uniform { IfOk result (λ pieces. All (IsUniformVector generators.now) pieces.items) }
    ensures due { (greatest count : ℕ) → IsCanonicalCount generators.now 0 frame.now greatest count → IsDue 4096 greatest count result }
    ensures count { (greatest count : ℕ) → IsCanonicalCount generators.now 0 frame.now greatest count
        → IfOk result (λ pieces. length pieces.items ≡ count) }
{
    cut(alloc, frame, generators, FINEST)
}

/// The same where no period is above the limit.
pub(crate) fn cut(
    alloc: Global,
    frame: &Grid,
    generators: &[Grid],
    limit: u64,
) -> Result<Vec<Grid>, GenError>
    requires limit { limit < 2 ^ 63 }
    ensures split { IfOk result (λ pieces. SplitsVectors pieces.items (in_box frame.now)) }
    ensures uniform { IfOk result (λ pieces. All (IsUniformVector generators.now) pieces.items) }
    ensures few { IfOk result (λ pieces. length pieces.items ≤ 64) }
    ensures count { (greatest count : ℕ) → IsCanonicalCount generators.now 0 frame.now greatest count
        → IfOk result (λ pieces. length pieces.items ≡ count) }
    ensures due { (greatest count : ℕ) → IsCanonicalCount generators.now 0 frame.now greatest count → IsDue limit greatest count result }
    ensures too_fine { result ≡ Err GenError.TooFine → (k : ℕ) × (k < length frame.now) × IsTooFine limit (axis_grids k generators.now) }
{
    let axes = frame.axes();
    let mut pieces = no_axes(alloc)?;
    let mut left = axes.len();
    while left > 0 {
        left -= 1;
        let grids = axis_of(alloc, generators, left)?;
        match runs_of_axis(alloc, &axes[left], grids.as_slice(), limit) {
            Ok(runs) => pieces = with_axis(alloc, runs.as_slice(), &pieces)?,
            Err(error) => return Err(error),
        }
    }
    if pieces.count > MOST {
        return Err(GenError::TooMany);
    }
    Ok(pieces.grids)
}

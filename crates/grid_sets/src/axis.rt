ghost use Rattle.std.specs.Prelude.{◌≡◌, ℕ, ◌<◌, ◌^◌, ◌<ℤ◌, IfOk, OnOk, Err};
ghost use Rattle.std.specs.List.{All};
ghost use Rattle.sac_base.specs.Grids.{within, Splits};
ghost use Rattle.grid_sets.specs.Segments.{NoCut, IsMultipleFor, IsUniform, ExtendsByRuns, HasRuns, IsAxisCount, IsTooFine};

use crate::pair::GridError;
use crate::period::segment_period;
use crate::runs::segment_runs;
use crate::segment::{Segment, behind, first_segment};
use sac_base::{Grid1, Memory};
use std::alloc::Global;

/// Appends the runs of a segment that no grid begins or ends in.
fn append_runs(
    alloc: Global,
    segment: &Segment,
    period: u64,
    grids: &[Grid1],
    pieces: &mut Vec<Grid1>,
) -> Result<(), Memory>
    requires some { segment.now.from <ℤ segment.now.to }
    requires positive { 0 < period }
    requires fits { period < 2 ^ 63 }
    requires clear { All (NoCut segment.now.from segment.now.to) grids.now }
    requires multiple { All (IsMultipleFor period segment.now.from segment.now.to) grids.now }
    ensures { OnOk result (ExtendsByRuns pieces.old.items pieces.new.items segment.now.from segment.now.to grids.now period) }
{
    let mut more = segment_runs(alloc, segment, period, grids)?;
    pieces.append(&mut more)?;
    Ok(())
}

/// The axis as runs of neighbours that belong to the same grids, segment by segment, where no segment has a period above the limit.
pub fn axis_runs(
    alloc: Global,
    axis: &Segment,
    grids: &[Grid1],
    limit: u64,
) -> Result<Vec<Grid1>, GridError>
    requires { limit < 2 ^ 63 }
    ensures split { IfOk result (λ pieces. Splits pieces.items (within axis.now.from axis.now.to)) }
    ensures uniform { IfOk result (λ pieces. All (IsUniform grids.now) pieces.items) }
    ensures count { HasRuns grids.now axis.now.from axis.now.to limit result }
    ensures fine { (greatest runs : ℕ) → IsAxisCount grids.now axis.now.to axis.now.from greatest runs → result ≡ Err GridError.TooFine → limit < greatest }
    ensures too_fine { result ≡ Err GridError.TooFine → IsTooFine limit grids.now }
{
    let mut pieces = Vec::new(alloc);
    let mut rest = *axis;
    while rest.from < rest.to {
        let segment = first_segment(&rest, grids);
        let Some(period) = segment_period(&segment, grids, limit) else {
            return Err(GridError::TooFine);
        };
        match append_runs(alloc, &segment, period, grids, &mut pieces) {
            Ok(()) => rest = behind(&segment, &rest),
            Err(Memory) => return Err(GridError::Memory),
        }
    }
    Ok(pieces)
}

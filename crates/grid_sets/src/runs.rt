ghost use Rattle.std.specs.Prelude.{◌≡◌, ℕ, ◌<◌, ◌≤◌, ◌^◌, ℤ, ◌-ℤ◌, ◌≤ℤ◌, ◌<ℤ◌, ◌⊎◌, unsigned_abs, not, true, false, IfOk, length, min};
ghost use Rattle.std.specs.List.{All};
ghost use Rattle.sac_base.specs.Grids.{has_index, within, Splits};
ghost use Rattle.grid_sets.specs.Segments.{NoCut, IsMultipleFor, IsUniform, IsRunBetween, change_after, alike, runs_of};

use crate::period::is_spanning;
use crate::segment::{Segment, behind};
use sac_base::{Grid1, Memory};
use std::alloc::Global;

/// The first `count` numbers of the segment, or all of them where there are fewer.
fn first_numbers(segment: &Segment, count: u64) -> Segment
    requires some { segment.now.from <ℤ segment.now.to }
    requires positive { 0 < count }
    requires fits { count < 2 ^ 63 }
    ensures from { result.from ≡ segment.now.from }
    ensures some { segment.now.from <ℤ result.to }
    ensures low { result.to ≤ℤ segment.now.to }
    ensures near { unsigned_abs (result.to -ℤ segment.now.from) ≡ min (unsigned_abs (segment.now.to -ℤ segment.now.from)) count }
{
    if count < segment.to.abs_diff(segment.from) {
        Segment {
            from: segment.from,
            to: segment.from + count as i64,
        }
    } else {
        *segment
    }
}

/// How far it is from the first number of the segment to where the grid has a gap after members, or members after a gap.
fn steps_to_change(segment: &Segment, grid: &Grid1) -> u64
    requires below { grid.now.lo ≤ℤ segment.now.from }
    requires narrow { grid.now.width <ℤ grid.now.step }
    ensures { result ≡ change_after segment.now.from grid.now }
{
    let step = grid.step.unsigned_abs();
    let width = grid.width.unsigned_abs();
    let phase = segment.from.abs_diff(grid.lo) % step;
    if phase < width {
        width - phase
    } else {
        step - phase
    }
}

/// The front of the segment, of which the grid has all numbers or none.
fn front_of_grid(segment: &Segment, grid: &Grid1) -> Segment
    requires some { segment.now.from <ℤ segment.now.to }
    requires clear { NoCut segment.now.from segment.now.to grid.now }
    ensures from { result.from ≡ segment.now.from }
    ensures some { segment.now.from <ℤ result.to }
    ensures low { result.to ≤ℤ segment.now.to }
    ensures same { (x : ℤ) → within segment.now.from result.to x ≡ true → has_index grid.now x ≡ has_index grid.now segment.now.from }
    ensures change { (result.to ≡ segment.now.to) ⊎ (has_index grid.now result.to ≡ not (has_index grid.now segment.now.from)) }
{
    if !is_spanning(grid, segment) || grid.step <= grid.width {
        return *segment;
    }
    first_numbers(segment, steps_to_change(segment, grid))
}

/// The first run of the segment: neighbours that belong to the same grids.
fn first_run(segment: &Segment, grids: &[Grid1]) -> Segment
    requires some { segment.now.from <ℤ segment.now.to }
    requires clear { All (NoCut segment.now.from segment.now.to) grids.now }
    ensures from { result.from ≡ segment.now.from }
    ensures some { segment.now.from <ℤ result.to }
    ensures low { result.to ≤ℤ segment.now.to }
    ensures same { (x : ℤ) → within segment.now.from result.to x ≡ true → alike grids.now segment.now.from x ≡ true }
    ensures change { result.to <ℤ segment.now.to → alike grids.now segment.now.from result.to ≡ false }
{
    let mut run = *segment;
    for grid in grids {
        run = front_of_grid(&run, grid);
    }
    run
}

/// The run in the first period of the segment and in each later one.
fn repeated(segment: &Segment, period: u64, run: &Segment) -> Grid1
    requires low { segment.now.from ≤ℤ run.now.from }
    requires some { run.now.from <ℤ run.now.to }
    requires high { run.now.to ≤ℤ segment.now.to }
    requires near { unsigned_abs (run.now.to -ℤ segment.now.from) ≤ period }
    requires fits { period < 2 ^ 63 }
    ensures lo { result.lo ≡ run.now.from }
    ensures members { IsRunBetween segment.now.from segment.now.to period run.now.from run.now.to result }
{
    Grid1 {
        lo: run.from,
        hi: segment.to,
        step: period as i64,
        width: run.to.abs_diff(run.from) as i64,
    }
}

/// The segment as runs of neighbours that belong to the same grids, in its first period and again in each later one.
pub(crate) fn segment_runs(
    alloc: Global,
    segment: &Segment,
    period: u64,
    grids: &[Grid1],
) -> Result<Vec<Grid1>, Memory>
    requires some { segment.now.from <ℤ segment.now.to }
    requires positive { 0 < period }
    requires fits { period < 2 ^ 63 }
    requires clear { All (NoCut segment.now.from segment.now.to) grids.now }
    requires multiple { All (IsMultipleFor period segment.now.from segment.now.to) grids.now }
    ensures split { IfOk result (λ pieces. Splits pieces.items (within segment.now.from segment.now.to)) }
    ensures uniform { IfOk result (λ pieces. All (IsUniform grids.now) pieces.items) }
    ensures count { IfOk result (λ pieces. length pieces.items ≡ runs_of grids.now segment.now.from segment.now.to period) }
{
    let mut pieces = Vec::new(alloc);
    let mut rest = first_numbers(segment, period);
    while rest.from < rest.to {
        let run = first_run(&rest, grids);
        pieces.push(repeated(segment, period, &run))?;
        rest = behind(&run, &rest);
    }
    Ok(pieces)
}

ghost use Rattle.std.specs.Prelude.{◌≡◌, ◌↔◌, IsTrue, IfSome, None, ℕ, ◌<◌, ◌≤◌, ◌%◌, ◌^◌};
ghost use Rattle.std.specs.List.{All};
ghost use Rattle.grid_sets.specs.Segments.{spans, steps_of, IsMultipleFor, IsPeriod};
ghost use Rattle.grid_sets.specs.Periods.{IsLeastMultiple};

use crate::segment::Segment;
use sac_base::Grid1;

/// The longest common period of two grids, and the longest period of a segment of a partition.
pub const FINEST: u64 = 4096;

/// A limit that no grid's step exceeds.
pub const COARSEST: u64 = 9_223_372_036_854_775_807;

/// The length after which the members of a grid repeat: 1 where it has all numbers between its bounds.
pub(crate) fn step_of(grid: &Grid1) -> u64
    ensures value { result ≡ steps_of grid.now }
    ensures positive { 0 < result }
    ensures fits { result < 2 ^ 63 }
{
    if grid.width >= grid.step {
        1
    } else {
        grid.step.unsigned_abs()
    }
}

/// The least common multiple, where it is at most 4,096.
pub(crate) fn least_multiple(a: u64, b: u64) -> Option<u64>
    requires left { 0 < a }
    requires right { 0 < b }
    ensures found { IfSome result (λ p. IsLeastMultiple a b p × (p ≤ 4096)) }
    ensures none { result ≡ None → (p : ℕ) → IsLeastMultiple a b p → 4096 < p }
{
    for p in 1..FINEST + 1 {
        if p % a == 0 && p % b == 0 {
            return Some(p);
        }
    }
    None
}

/// Whether the grid spans the segment.
pub(crate) fn is_spanning(grid: &Grid1, segment: &Segment) -> bool
    ensures { result ≡ spans grid.now segment.now.from segment.now.to }
{
    grid.lo <= segment.from && segment.to <= grid.hi
}

/// Whether the period suits the grid: a multiple of its step, where it spans the segment.
fn is_multiple(period: u64, segment: &Segment, grid: &Grid1) -> bool
    ensures { IsTrue result ↔ IsMultipleFor period segment.now.from segment.now.to grid.now }
{
    if is_spanning(grid, segment) {
        period % step_of(grid) == 0
    } else {
        true
    }
}

/// Whether the members of each grid that spans the segment repeat after `period`.
fn is_period(period: u64, segment: &Segment, grids: &[Grid1]) -> bool
    ensures { IsTrue result ↔ All (IsMultipleFor period segment.now.from segment.now.to) grids.now }
{
    grids.iter().all(|grid| is_multiple(period, segment, grid))
}

/// The greatest step of the grids that span the segment, which divides each common multiple.
fn greatest_step(segment: &Segment, grids: &[Grid1]) -> u64
    ensures positive { 0 < result }
    ensures divides { (k : ℕ) → All (IsMultipleFor k segment.now.from segment.now.to) grids.now → k % result ≡ 0 }
{
    let mut greatest = 1;
    for grid in grids {
        if is_spanning(grid, segment) && greatest < step_of(grid) {
            greatest = step_of(grid);
        }
    }
    greatest
}

/// The least common multiple of the steps of the grids that span the segment, where it is at most the limit.
/// The multiples of the greatest step are tried one after the other, so a grid that spans the segment alone is found at once.
pub(crate) fn segment_period(segment: &Segment, grids: &[Grid1], limit: u64) -> Option<u64>
    requires { limit < 2 ^ 63 }
    ensures found { IfSome result (λ p. IsPeriod segment.now.from segment.now.to grids.now p × (p ≤ limit)) }
    ensures none { result ≡ None → (k : ℕ) → 0 < k → All (IsMultipleFor k segment.now.from segment.now.to) grids.now → limit < k }
{
    let step = greatest_step(segment, grids);
    for count in 1..limit / step + 1 {
        let period = step * count;
        if is_period(period, segment, grids) {
            return Some(period);
        }
    }
    None
}

//! The ranges of a source.

ghost use Rattle.std.specs.Prelude.{◌≡◌, IfOk, IsTrue};
ghost use Rattle.phase_loop_cells.specs.Ranges.{AreAll, AreMade, AreRanges, ranges_of};

use array_with_loops::{Plan, Range};
use counted_code::CodePart;
use grid_ranges::range_of;
use run_loops::CellSource;
use sac_base::Memory;
use std::alloc::Global;

/// The ranges with the members of the parts' grids, up to the first grid that has none.
pub fn part_ranges(alloc: Global, parts: &[CodePart]) -> Result<Vec<Range>, Memory>
    ensures { IfOk result (λ ranges. AreRanges ranges.items parts.now) }
{
    let mut ranges = Vec::new(alloc);
    for k in 0..parts.len() {
        let Some(range) = range_of(alloc, &parts[k].grid)? else {
            return Ok(ranges);
        };
        ranges.push(range)?;
    }
    Ok(ranges)
}

/// The ranges that a source needs besides those of a plan: those of parts.
pub fn made_ranges(alloc: Global, source: &CellSource<'_>) -> Result<Vec<Range>, Memory>
    ensures { IfOk result (λ made. AreMade source.now made.items) }
{
    match source {
        CellSource::Generators(_) => Ok(Vec::new(alloc)),
        CellSource::Parts(parts) => part_ranges(alloc, parts),
    }
}

/// The ranges of a source: the plan's of generators, or those that were made of parts.
pub fn source_ranges<'a>(source: &CellSource<'_>, plan: &'a Plan, made: &'a [Range]) -> &'a [Range]
    ensures { result.now ≡ ranges_of source.now plan.now made.now }
{
    match source {
        CellSource::Generators(_) => &plan.ranges,
        CellSource::Parts(_) => made,
    }
}

/// Whether each part has a range.
pub(crate) fn are_all(source: &CellSource<'_>, made: &[Range]) -> bool
    ensures { IsTrue result → AreAll source.now made.now }
{
    match source {
        CellSource::Generators(_) => true,
        CellSource::Parts(parts) => parts.len() <= made.len(),
    }
}

//! Grids as ranges of generators.
#![tactic(auto)]

ghost use Rattle.std.specs.Prelude.{◌≡◌, IfOk, IfSome, IsTrue};
ghost use Rattle.array_with_loops.specs.Ranges.{IsBound};
ghost use Rattle.grid_ranges.specs.Members.{HasMembersOf, HasWords};

use array_with_loops::Range;
use sac_base::{Grid, Grid1, Memory};
use std::alloc::Global;

/// The range with the members of a grid, if bounds, steps and widths fit those of a generator.
pub fn range_of(alloc: Global, grid: &Grid) -> Result<Option<Range>, Memory>
    ensures { IfOk result (λ o. IfSome o (HasMembersOf grid.now)) }
{
    let mut lower = Vec::new(alloc);
    let mut upper = Vec::new(alloc);
    let mut step = Vec::new(alloc);
    let mut width = Vec::new(alloc);
    for axis in grid.axes() {
        if !has_words(axis) {
            return Ok(None);
        }
        lower.push(axis.lo)?;
        upper.push(axis.hi)?;
        step.push(step_of(axis))?;
        width.push(width_of(axis))?;
    }
    let range = Range::new(alloc, &lower, &upper, &step, &width)?;
    Ok(Some(range))
}

// Whether the bounds of an axis are those of a generator, and its step and width have 32 bits.
fn has_words(axis: &Grid1) -> bool
    ensures { IsTrue result → HasWords axis.now }
{
    is_bound(axis.lo) && is_bound(axis.hi) && axis.step <= MOST_STEP && axis.width <= MOST_STEP
}

fn step_of(axis: &Grid1) -> i32
    requires { HasWords axis.now }
    ensures { result ≡ axis.now.step }
{
    axis.step as i32
}

fn width_of(axis: &Grid1) -> i32
    requires { HasWords axis.now }
    ensures { result ≡ axis.now.width }
{
    axis.width as i32
}

fn is_bound(z: i64) -> bool
    ensures { IsTrue result → IsBound z }
{
    -2_147_483_648 <= z && z <= 2_147_483_648
}

// The greatest step of a generator.
const MOST_STEP: i64 = 2_147_483_647;

//! The part that holds the indices of a row.

ghost use Rattle.std.specs.Prelude.{◌≡◌, ℕ, ◌+◌, ◌<◌, ◌≤◌, ◌%◌, pos, ◌+ℤ◌, nat_lt};
ghost use Rattle.sac_base.specs.Grids.{has_index, has_vector};
ghost use Rattle.array_with_loops.specs.Ranges.{moved_last};
ghost use Rattle.loop_code.specs.Runs.{HasAlong};

use sac_base::{Grid, Grid1};

// The place of a part, or none, and how many indices along a row it has.
#[derive(Drop, Clone, Copy)]
pub(crate) struct PartRun {
    pub part: Option<u64>,
    pub count: u64,
}

/// The first part that has an index, or that none does, and for how many indices along the row, of at most so many, that is so.
pub(crate) fn part_at(parts: &[Grid], index: &[i64], most: u64) -> PartRun
    requires { 1 ≤ most }
    ensures some { 1 ≤ result.count }
    ensures most { result.count ≤ most }
    ensures along { HasAlong parts.now index.now result.part result.count }
{
    let mut count = most;
    for part in 0..parts.len() {
        let run = grid_run(&parts[part], index, count);
        count = run.count;
        if run.held {
            return PartRun {
                part: Some(part as u64),
                count,
            };
        }
    }
    PartRun { part: None, count }
}

// Whether an axis or a grid has what is asked for, and of how many along a row that is said.
#[derive(Drop, Clone, Copy)]
struct GridRun {
    held: bool,
    count: u64,
}

impl GridRun {
    fn of(held: bool, count: u64) -> GridRun
        ensures held { result.held ≡ held }
        ensures count { result.count ≡ count }
    {
        GridRun { held, count }
    }
}

// Whether a grid has an index, and for how many indices from it on along the row, of at most so many, that stays so.
fn grid_run(grid: &Grid, index: &[i64], most: u64) -> GridRun
    requires { 1 ≤ most }
    ensures some { 1 ≤ result.count }
    ensures most { result.count ≤ most }
    ensures same { (j : ℕ) → j < result.count → has_vector grid.now (moved_last j index.now) ≡ result.held }
{
    let axes = grid.axes();
    if index.len() != axes.len() {
        return GridRun::of(false, most);
    }
    if index.is_empty() {
        return GridRun::of(true, most);
    }
    let last = index.len() - 1;
    for k in 0..last {
        if !axes[k].has(index[k]) {
            return GridRun::of(false, most);
        }
    }
    axis_run(&axes[last], index[last], most)
}

// Whether an axis has a number, and for how many numbers from it on, of at most so many, that stays so.
fn axis_run(axis: &Grid1, x: i64, most: u64) -> GridRun
    requires { 1 ≤ most }
    ensures some { 1 ≤ result.count }
    ensures most { result.count ≤ most }
    ensures same { (j : ℕ) → j < result.count → has_index axis.now (x +ℤ pos j) ≡ result.held }
{
    if x >= axis.hi {
        return GridRun::of(false, most);
    }
    if x < axis.lo {
        return GridRun::of(false, most.min(axis.lo.abs_diff(x)));
    }
    let most = most.min(axis.hi.abs_diff(x));
    let step = axis.step.unsigned_abs();
    let width = axis.width.unsigned_abs();
    offset_run(x.abs_diff(axis.lo), step, width, most)
}

// Whether the remainder of an offset by the step is below the width, and for how many offsets, of at most so many, that stays so.
fn offset_run(offset: u64, step: u64, width: u64, most: u64) -> GridRun
    requires step { 1 ≤ step }
    requires width { 1 ≤ width }
    requires most { 1 ≤ most }
    ensures some { 1 ≤ result.count }
    ensures most { result.count ≤ most }
    ensures same { (j : ℕ) → j < result.count → nat_lt ((offset + j) % step) width ≡ result.held }
{
    if step <= width {
        return GridRun::of(true, most);
    }
    let over = offset % step;
    if over < width {
        GridRun::of(true, most.min(width - over))
    } else {
        GridRun::of(false, most.min(step - over))
    }
}

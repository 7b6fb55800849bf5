//! The positions of a frame, in runs that one part holds.

ghost use Rattle.std.specs.Prelude.{◌≡◌, ◌+◌, ◌<◌, ◌≤◌, length, pos, All, IfOk, OnOk};
ghost use Rattle.sac_base.specs.Arrays.{size, MOST};
ghost use Rattle.sac_base.specs.declared.grid.Grid1.{Grid1};
ghost use Rattle.array_with_loops.specs.GridFrames.{grid_extents};
ghost use Rattle.loop_code.specs.Runs.{AreRunsOf, AreRunsOver, HasFrom, pushed};

use crate::grids::{PartRun, part_at};
use crate::members::FrameMembers;
use array_with_loops::IndexVector;
use sac_base::{Grid, Memory};
use std::alloc::Global;

/// Positions of a frame, one after another in row-major order, and the part that holds them.
#[derive(Clone, Copy, Debug, PartialEq, Eq)]
pub struct Run {
    pub from: u64,
    pub count: u64,
    pub part: u64,
}

/// Runs of positions, in ascending order.
#[derive(Debug, Drop)]
pub struct Runs {
    pub rows: Vec<Run>,
}

/// The positions of a frame that parts hold, in runs of one part each: the first that has the frame's member at the position. A run
/// lies within a row of the frame.
pub fn rows(alloc: Global, frame: &Grid, parts: &[Grid]) -> Result<Runs, Memory>
    requires dense { All (λ (axis : Grid1). axis.step ≡ pos 1) frame.now }
    requires most { size (grid_extents frame.now) ≤ MOST }
    ensures { IfOk result (λ runs. AreRunsOf frame.now parts.now runs.rows.items) }
{
    let indices = FrameMembers::of_grid(alloc, frame)?;
    let rows = runs_over(alloc, &indices, parts)?;
    Ok(Runs { rows })
}

// The same of the members of a frame.
fn runs_over(alloc: Global, indices: &FrameMembers, parts: &[Grid]) -> Result<Vec<Run>, Memory>
    ensures { IfOk result (λ rows. AreRunsOver indices.now parts.now rows.items) }
{
    let mut offset = IndexVector::new(alloc);
    let mut index = Vec::new(alloc);
    let mut rows = Vec::new(alloc);
    let mut place = 0;
    while place < indices.count() {
        let run = run_from(indices, parts, place, &mut offset, &mut index)?;
        push_run(&mut rows, place, &run)?;
        place += run.count as usize;
    }
    Ok(rows)
}

// Appends the run of so many positions from a place on, where a part has them.
fn push_run(rows: &mut Vec<Run>, place: usize, run: &PartRun) -> Result<(), Memory>
    ensures { OnOk result (rows.new.items ≡ pushed rows.old.items place run.now.part run.now.count) }
{
    if let Some(part) = run.part {
        rows.push(Run {
            from: place as u64,
            count: run.count,
            part,
        })?;
    }
    Ok(())
}

// The first part that has the index at a place, or that none does, and for how many places from it on, within its row, that is so.
// The index and its offset are written into the vectors, which take memory for the first place alone.
fn run_from(
    indices: &FrameMembers,
    parts: &[Grid],
    place: usize,
    offset: &mut IndexVector,
    index: &mut Vec<i64>,
) -> Result<PartRun, Memory>
    requires { place < length indices.now }
    ensures some { IfOk result (λ run. 1 ≤ run.count) }
    ensures inside { IfOk result (λ run. place + run.count ≤ length indices.now) }
    ensures from { IfOk result (λ run. HasFrom indices.now parts.now place run.part run.count) }
{
    indices.member(place, offset, index)?;
    let most = indices.row_left(place) as u64;
    Ok(part_at(parts, index.as_slice(), most))
}

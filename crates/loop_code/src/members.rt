//! The members of a frame by their positions, as offsets from the lowest one.

ghost use Rattle.std.specs.Prelude.{◌≡◌, ◌≤◌, ◌<◌, ◌+◌, ℕ, pos, false, [], length, map, slice_index_or, All, IfOk, OnOk};
ghost use Rattle.sac_base.specs.Arrays.{size, MOST};
ghost use Rattle.sac_base.specs.declared.grid.Grid1.{Grid1};
ghost use Rattle.sac_base.specs.Grids.{members};
ghost use Rattle.sac_base.specs.WithLoops.{is_empty_box};
ghost use Rattle.array_with_loops.specs.GridFrames.{box_range, grid_extents};
ghost use Rattle.array_with_loops.specs.Ranges.{moved_last};
ghost use Rattle.loop_code.specs.Offsets.{HasBounds, lowest_of};

use array_with_loops::{Frame, IndexVector};
use sac_base::{Grid, Memory, Shape};
use std::alloc::Global;
use std::marker::Model;

/// The members of a frame in row-major order: its lowest one, and the offsets of all from it, which have 32 bits however far the frame lies.
#[derive(Drop)]
pub(crate) struct FrameMembers {
    low: Vec<i64>,
    offsets: Frame,
}

impl Model for FrameMembers {
    ghost use Rattle.std.specs.Prelude.{List, ℤ, All};
    ghost use Rattle.loop_code.specs.Offsets.{IsOffset, shifted};

    ghost Value = { List (List ℤ) };

    ghost view = { λ f. shifted f.low.items f.offsets };

    ghost invariant = { λ f. All (IsOffset f.low.items) f.offsets };
}

impl FrameMembers {
    /// The members of a grid without gaps.
    pub fn of_grid(alloc: Global, grid: &Grid) -> Result<FrameMembers, Memory>
        requires dense { All (λ (axis : Grid1). axis.step ≡ pos 1) grid.now }
        requires most { size (grid_extents grid.now) ≤ MOST }
        ensures { IfOk result (λ f. f ≡ members grid.now) }
    {
        if is_empty(grid) {
            return FrameMembers::none(alloc);
        }
        let low = lowest(alloc, grid)?;
        let extents = extents_of(alloc, grid)?;
        let offsets = Frame::of_shape(alloc, &extents)?;
        Ok(FrameMembers { low, offsets })
    }

    // No member.
    fn none(alloc: Global) -> Result<FrameMembers, Memory>
        ensures { IfOk result (λ f. f ≡ []) }
    {
        let extents = Shape::vector(alloc, 0);
        let offsets = Frame::of_shape(alloc, &extents)?;
        Ok(FrameMembers {
            low: Vec::new(alloc),
            offsets,
        })
    }

    /// How many members there are.
    pub fn count(&self) -> usize
        ensures { result ≡ length self.now }
    {
        self.offsets.count()
    }

    /// Writes the member at a place, and its offset from the lowest one.
    pub fn member(
        &self,
        place: usize,
        offset: &mut IndexVector,
        into: &mut Vec<i64>,
    ) -> Result<(), Memory>
        requires { place < length self.now }
        ensures { OnOk result (into.new.items ≡ slice_index_or self.now place []) }
    {
        self.offsets.index(place, offset)?;
        let offset = offset.components();
        into.clear();
        for k in 0..self.low.len() {
            into.push(self.low[k] + i64::from(offset[k]))?;
        }
        Ok(())
    }

    /// For how many places from one on, to the end of its row, the member differs in the last component alone, which is one more
    /// from place to place.
    pub fn row_left(&self, place: usize) -> usize
        requires { place < length self.now }
        ensures some { 1 ≤ result }
        ensures inside { place + result ≤ length self.now }
        ensures along { (j : ℕ) → j < result → slice_index_or self.now (place + j) [] ≡ moved_last j (slice_index_or self.now place []) }
    {
        self.offsets.row_left(place)
    }
}

// Whether an axis of a grid without gaps has no number.
fn is_empty(grid: &Grid) -> bool
    ensures { result ≡ is_empty_box (box_range grid.now) }
{
    for axis in grid.axes() {
        if axis.lo >= axis.hi {
            return true;
        }
    }
    false
}

// The lower bounds of a grid.
fn lowest(alloc: Global, grid: &Grid) -> Result<Vec<i64>, Memory>
    ensures { IfOk result (λ low. low.items ≡ lowest_of grid.now) }
{
    let mut low = Vec::new(alloc);
    for axis in grid.axes() {
        low.push(axis.lo)?;
    }
    Ok(low)
}

// The extents of a grid.
fn extents_of(alloc: Global, grid: &Grid) -> Result<Shape, Memory>
    requires some { is_empty_box (box_range grid.now) ≡ false }
    requires most { size (grid_extents grid.now) ≤ MOST }
    ensures value { IfOk result (λ extents. extents ≡ grid_extents grid.now) }
    ensures bounds { IfOk result (λ extents. All HasBounds grid.now) }
{
    let mut extents = Vec::new(alloc);
    for axis in grid.axes() {
        extents.push(axis.hi.abs_diff(axis.lo) as i32)?;
    }
    Ok(Shape::from_extents(alloc, &extents).unwrap())
}

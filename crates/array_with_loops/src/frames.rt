//! The indices of a with-loop's frame.

ghost use Rattle.std.specs.Prelude.{◌≡◌, ◌≤◌, ◌<◌, [], length, slice_index_or, List, ℕ, ℤ, ◌+◌, IfOk, IfSome, OnOk, is_some, nat_le, All, FitsSigned, false};
ghost use Rattle.std.specs.Prelude.{true, map, pos};
ghost use mir.Syntax.{w32};
ghost use Rattle.sac_base.specs.Arrays.{size, MOST};
ghost use Rattle.sac_base.specs.declared.grid.Grid1.{Grid1};
ghost use Rattle.sac_base.specs.Grids.{has_vector, members};
ghost use Rattle.sac_base.specs.WithLoops.{box, box_size, shape_spans, span_of, is_empty_box};
ghost use Rattle.array_with_loops.specs.Frames.{joined_frame, frame_with, joined_next, IsSomeBox};
ghost use Rattle.array_with_loops.specs.GridFrames.{box_range, grid_extents};
ghost use Rattle.array_with_loops.specs.Ranges.{IsBound, moved_last};

use crate::ranges::Range;
use sac_base::{Grid, MOST_ELEMENTS, Memory, Shape, elements};
use std::alloc::Global;
use std::marker::Model;

/// An index vector, of at most 8 components.
#[derive(Drop)]
pub struct IndexVector {
    components: Vec<i32>,
}

impl Model for IndexVector {
    ghost use Rattle.std.specs.Prelude.{List, ℤ, length, ◌≤◌};

    ghost Value = { List ℤ };

    ghost view = { λ v. v.components.items };

    ghost invariant = { λ v. length v.components.items ≤ 8 };
}

impl IndexVector {
    /// No component.
    pub fn new(alloc: Global) -> IndexVector
        ensures { result ≡ [] }
    {
        IndexVector {
            components: Vec::new(alloc),
        }
    }

    /// The components.
    pub fn components(&self) -> &[i32]
        ensures value { result.now ≡ self.now }
        ensures short { length self.now ≤ 8 }
    {
        self.components.as_slice()
    }
}

/// The indices of a frame in row-major order: its lowest index, its extents, and how many indices there are.
#[derive(Drop)]
pub struct Frame {
    low: Vec<i32>,
    extents: Shape,
    count: usize,
}

impl Model for Frame {
    ghost use Rattle.std.specs.Prelude.{List, ℤ};
    ghost use Rattle.sac_base.specs.WithLoops.{box};
    ghost use Rattle.array_with_loops.specs.Frames.{IsFrame, spans};

    ghost Value = { List (List ℤ) };

    ghost view = { λ f. box (spans f.low.items f.extents) };

    ghost invariant = { λ f. IsFrame f.low.items f.extents f.count };
}

impl Frame {
    /// The indices of a shape.
    pub fn of_shape(alloc: Global, shape: &Shape) -> Result<Frame, Memory>
        requires { size shape.now ≤ MOST }
        ensures { IfOk result (λ f. f ≡ box (shape_spans shape.now)) }
    {
        let _ = shape.extents();
        let mut low = Vec::new(alloc);
        for _k in 0..shape.rank() {
            low.push(0)?;
        }
        let count = elements(shape).unwrap() as usize;
        Ok(Frame {
            low,
            extents: shape.copy(),
            count,
        })
    }

    /// The indices of the least box that holds the boxes of all ranges that are not empty. There are none exactly where they would be too many.
    pub fn of_ranges(alloc: Global, ranges: &[Range]) -> Result<Option<Frame>, Memory>
        requires { All (λ r. length r ≤ 8) ranges.now }
        ensures some { IfOk result (λ o. IfSome o (λ f. f ≡ box (joined_frame ranges.now))) }
        ensures none { IfOk result (λ o. is_some o ≡ nat_le (box_size (joined_frame ranges.now)) MOST) }
    {
        match joined_range(alloc, ranges)? {
            None => {
                let frame = Frame::without_index(alloc)?;
                Ok(Some(frame))
            }
            Some(range) => Frame::of_box(alloc, &range),
        }
    }

    /// The members of a grid without gaps.
    pub fn of_grid(alloc: Global, grid: &Grid) -> Result<Frame, Memory>
        requires dense { All (λ (axis : Grid1). axis.step ≡ pos 1) grid.now }
        requires most { size (grid_extents grid.now) ≤ MOST }
        requires words { (index : List ℤ) → has_vector grid.now index ≡ true → All (FitsSigned w32) index }
        ensures { IfOk result (λ f. f ≡ members grid.now) }
    {
        if is_empty(grid) {
            return Frame::without_index(alloc);
        }
        let range = box_of(alloc, grid)?;
        let frame = Frame::of_box(alloc, &range)?;
        Ok(frame.unwrap())
    }

    // No index.
    fn without_index(alloc: Global) -> Result<Frame, Memory>
        ensures { IfOk result (λ f. f ≡ []) }
    {
        let mut low = Vec::new(alloc);
        low.push(0)?;
        Ok(Frame {
            low,
            extents: Shape::vector(alloc, 0),
            count: 0,
        })
    }

    // The indices of a box that is not empty, if they are not too many.
    fn of_box(alloc: Global, range: &Range) -> Result<Option<Frame>, Memory>
        requires nonempty { is_empty_box range.now ≡ false }
        requires rank { length range.now ≤ 8 }
        ensures some { IfOk result (λ o. IfSome o (λ f. f ≡ box (map span_of range.now))) }
        ensures none { IfOk result (λ o. is_some o ≡ nat_le (box_size (map span_of range.now)) MOST) }
    {
        let mut low = Vec::new(alloc);
        let mut extents = Vec::new(alloc);
        for axis in range.axes() {
            let extent = axis.extent();
            if extent > MOST_ELEMENTS {
                return Ok(None);
            }
            low.push(axis.lower() as i32)?;
            extents.push(extent as i32)?;
        }
        let Some(extents) = Shape::from_extents(alloc, &extents) else {
            return Ok(None);
        };
        match elements(&extents) {
            None => Ok(None),
            Some(count) => Ok(Some(Frame {
                low,
                extents,
                count: count as usize,
            })),
        }
    }

    /// How many indices there are.
    pub fn count(&self) -> usize
        ensures { result ≡ length self.now }
    {
        self.count
    }

    /// Writes the index at a place.
    pub fn index(&self, place: usize, into: &mut IndexVector) -> Result<(), Memory>
        requires { place < length self.now }
        ensures { (d : List ℤ) → OnOk result (into.new ≡ slice_index_or self.now place d) }
    {
        into.components.clear();
        let extents = self.extents.extents();
        // A frame has at most 2^24 indices, and a division of 32 bits is several times cheaper.
        let mut weight = self.count as u32;
        let mut rest = place as u32;
        for k in 0..self.low.len() {
            weight /= extents[k].unsigned_abs();
            into.components.push(self.low[k] + (rest / weight) as i32)?;
            rest %= weight;
        }
        Ok(())
    }

    /// For how many places from one on, to the end of its row, the index differs in the last component alone, which is one more
    /// from place to place.
    pub fn row_left(&self, place: usize) -> usize
        requires { place < length self.now }
        ensures some { 1 ≤ result }
        ensures inside { place + result ≤ length self.now }
        ensures along { (j : ℕ) (d e : List ℤ) → j < result → slice_index_or self.now (place + j) d ≡ moved_last j (slice_index_or self.now place e) }
    {
        let extents = self.extents.extents();
        let rank = self.low.len();
        if rank == 0 {
            return 1;
        }
        let extent = extents[rank - 1].unsigned_abs();
        (extent - place as u32 % extent) as usize
    }
}

/// The least box that holds the boxes of all ranges that are not empty, if there are any.
pub fn joined_range(alloc: Global, ranges: &[Range]) -> Result<Option<Range>, Memory>
    requires { All (λ r. length r ≤ 8) ranges.now }
    ensures frame { IfOk result (λ o. frame_with o [] ≡ joined_frame ranges.now) }
    ensures some { IfOk result (λ o. IfSome o IsSomeBox) }
{
    let mut joined = None;
    for range in ranges {
        joined = joined_with(alloc, joined, range)?;
    }
    Ok(joined)
}

fn joined_with(alloc: Global, joined: Option<Range>, range: &Range) -> Result<Option<Range>, Memory>
    ensures { IfOk result (λ o. o ≡ joined_next joined range.now) }
{
    if range.is_empty() {
        return Ok(joined);
    }
    let next = match joined {
        None => range.copy(alloc)?,
        Some(before) => before.joined(alloc, range)?,
    };
    Ok(Some(next))
}

// Whether the box of a grid has no index.
fn is_empty(grid: &Grid) -> bool
    ensures { result ≡ is_empty_box (box_range grid.now) }
{
    for axis in grid.axes() {
        if axis.lo >= axis.hi {
            return true;
        }
    }
    false
}

// The box of a grid.
fn box_of(alloc: Global, grid: &Grid) -> Result<Range, Memory>
    requires lower { All IsBound (map (λ (axis : Grid1). axis.lo) grid.now) }
    requires upper { All IsBound (map (λ (axis : Grid1). axis.hi) grid.now) }
    ensures value { IfOk result (λ r. r ≡ box_range grid.now) }
    ensures rank { IfOk result (λ r. length r ≤ 8) }
{
    let mut lower = Vec::new(alloc);
    let mut upper = Vec::new(alloc);
    let mut ones = Vec::new(alloc);
    for axis in grid.axes() {
        lower.push(axis.lo)?;
        upper.push(axis.hi)?;
        ones.push(1)?;
    }
    Range::new(alloc, &lower, &upper, &ones, &ones)
}

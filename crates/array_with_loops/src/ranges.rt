//! Which indices a generator holds.

ghost use Rattle.std.specs.Prelude.{◌≡◌, ◌<◌, ◌≤◌, ◌+◌, ◌%◌, nat_lt, ℕ, ◌-ℤ◌, pos, true, false, int_le, int_lt, List, [], ◌∷◌, length, All, Some, None, Ok, IfOk};
ghost use Rattle.std.specs.Prelude.{IfSome, IfNone, map, unsigned_abs, ◌+ℤ◌};
ghost use Rattle.sac_base.specs.WithLoops.{holds_at, holds as holds_all, axes as axes_of, lies_in, members, is_empty_box, joined_axis, joined_range, span_of};
ghost use Rattle.std.specs.List.{list_all};
ghost use Rattle.array_with_loops.specs.Ranges.{IsAxis, IsBound, IsStep, is_empty_axis, axis_within, axes_within, moved_last};
ghost use Rattle.sac_base.specs.Shapes.{IsExtent};

use sac_base::{Grid1, Memory, Shape};
use std::alloc::Global;
use std::marker::Model;

/// One component of a generator: it holds the numbers v with `lower <= v < upper` and `(v - lower) mod step < width`.
#[derive(Drop)]
pub struct Axis {
    lower: i64,
    upper: i64,
    step: u32,
    width: u32,
}

impl Model for Axis {
    ghost use Rattle.std.specs.Prelude.{pos};
    ghost use Rattle.sac_base.specs.WithLoops.{Axis as AxisValue};
    ghost use Rattle.array_with_loops.specs.Ranges.{IsAxis};

    ghost Value = { AxisValue };

    ghost view = { λ a. record { lower = a.lower; upper = a.upper; step = pos a.step; width = pos a.width } };

    ghost invariant = { λ a. IsAxis (record { lower = a.lower; upper = a.upper; step = pos a.step; width = pos a.width }) };
}

impl Axis {
    /// The lower bound, which is in the component.
    pub fn lower(&self) -> i64
        ensures value { result ≡ self.now.lower }
        ensures axis { IsAxis self.now }
    {
        self.lower
    }

    /// How many numbers lie from the lower bound to below the upper one.
    pub fn extent(&self) -> u64
        ensures value { result ≡ (span_of self.now).extent }
        ensures axis { IsAxis self.now }
    {
        if self.upper <= self.lower {
            0
        } else {
            (self.upper - self.lower) as u64
        }
    }

    /// The axis of a grid with the same bounds, step and width.
    pub fn grid_axis(&self) -> Grid1
        ensures lo { result.lo ≡ self.now.lower }
        ensures hi { result.hi ≡ self.now.upper }
        ensures step { result.step ≡ self.now.step }
        ensures width { result.width ≡ self.now.width }
    {
        Grid1 {
            lo: self.lower,
            hi: self.upper,
            step: i64::from(self.step),
            width: i64::from(self.width),
        }
    }

    // How far a number lies above the lower bound, if it lies between the bounds.
    fn offset(&self, v: i32) -> Option<u64>
        ensures some { IfSome result (λ n. (v -ℤ self.now.lower ≡ pos n) × (int_le self.now.lower v ≡ true) × (int_lt v self.now.upper ≡ true)) }
        ensures none { IfNone result (holds_at self.now v ≡ false) }
    {
        let v = i64::from(v);
        if v < self.lower {
            return None;
        }
        if v >= self.upper {
            return None;
        }
        Some((v - self.lower) as u64)
    }

    /// Whether the component holds a number.
    pub fn holds(&self, v: i32) -> bool
        ensures { result ≡ holds_at self.now v }
    {
        match self.offset(v) {
            Some(offset) => is_held(offset, self.step, self.width),
            None => false,
        }
    }

    // Whether the component holds a number, and for how many numbers from it on, of at most so many, that stays so.
    fn run_from(&self, v: i32, most: usize) -> Run
        requires { 1 ≤ most }
        ensures some { 1 ≤ result.count }
        ensures most { result.count ≤ most }
        ensures same { (j : ℕ) → j < result.count → holds_at self.now (v +ℤ pos j) ≡ result.held }
    {
        let v = i64::from(v);
        if v >= self.upper {
            return Run::of(false, most);
        }
        if v < self.lower {
            return Run::of(false, most.min((self.lower - v) as usize));
        }
        let most = most.min((self.upper - v) as usize);
        if self.step <= self.width {
            return Run::of(true, most);
        }
        run_of((v - self.lower) as u64, self.step, self.width, most)
    }

    /// Whether it has no number.
    pub fn is_empty(&self) -> bool
        ensures { result ≡ is_empty_axis self.now }
    {
        self.lower >= self.upper
    }

    // Whether all that it holds, which is something, lies from 0 to below an extent.
    fn is_within(&self, extent: i32) -> bool
        requires some { is_empty_axis self.now ≡ false }
        requires extent { IsExtent extent }
        ensures { result ≡ axis_within (unsigned_abs extent) self.now }
    {
        if self.lower < 0 {
            return false;
        }
        let last = last_offset(self.extent(), u64::from(self.step), u64::from(self.width));
        self.lower.unsigned_abs() + last < u64::from(extent.unsigned_abs())
    }

    fn copy(&self) -> Axis
        ensures { result ≡ self.now }
    {
        Axis {
            lower: self.lower,
            upper: self.upper,
            step: self.step,
            width: self.width,
        }
    }

    // The least axis without gaps that holds two.
    fn joined(&self, other: &Axis) -> Axis
        ensures { result ≡ joined_axis self.now other.now }
    {
        Axis {
            lower: self.lower.min(other.lower),
            upper: self.upper.max(other.upper),
            step: self.step,
            width: self.width,
        }
    }
}

/// How a range stands to the indices along a row from one on: whether it holds them, and of how many that is said.
#[derive(Drop, Clone, Copy)]
pub struct Run {
    pub held: bool,
    pub count: usize,
}

impl Run {
    fn of(held: bool, count: usize) -> Run
        ensures held { result.held ≡ held }
        ensures count { result.count ≡ count }
    {
        Run { held, count }
    }
}

// Whether the remainder of an offset by the step is below the width.
fn is_held(offset: u64, step: u32, width: u32) -> bool
    requires { 1 ≤ step }
    ensures { result ≡ nat_lt (offset % step) width }
{
    step <= width || offset % u64::from(step) < u64::from(width)
}

// For how many offsets, of at most so many, the remainder by the step stays below the width, or above it.
fn run_of(offset: u64, step: u32, width: u32, most: usize) -> Run
    requires width { 1 ≤ width }
    requires step { width < step }
    requires most { 1 ≤ most }
    ensures some { 1 ≤ result.count }
    ensures most { result.count ≤ most }
    ensures same { (j : ℕ) → j < result.count → nat_lt ((offset + j) % step) width ≡ result.held }
{
    let over = offset % u64::from(step);
    if over < u64::from(width) {
        Run::of(true, most.min((u64::from(width) - over) as usize))
    } else {
        Run::of(false, most.min((u64::from(step) - over) as usize))
    }
}

// The greatest number below an extent whose remainder by the step is below the width.
fn last_offset(extent: u64, step: u64, width: u64) -> u64
    requires extent { 1 ≤ extent }
    requires step { 1 ≤ step }
    requires width { 1 ≤ width }
    ensures inside { result < extent }
    ensures held { result % step < width }
    ensures greatest { (n : ℕ) → n < extent → n % step < width → n ≤ result }
{
    let most = extent - 1;
    let over = most % step;
    if over < width {
        most
    } else {
        most - over + (width - 1)
    }
}

/// The components of a generator, the outermost first.
#[derive(Drop)]
pub struct Range {
    axes: Vec<Axis>,
}

impl Model for Range {
    ghost use Rattle.std.specs.Prelude.{All};
    ghost use Rattle.sac_base.specs.WithLoops.{Range as RangeValue};
    ghost use Rattle.array_with_loops.specs.Ranges.{IsAxis};

    ghost Value = { RangeValue };

    ghost view = { λ r. r.axes.items };

    ghost invariant = { λ r. All IsAxis r.axes.items };
}

impl Range {
    /// The range of these bounds, steps and widths, of which there are equally many.
    pub fn new(
        alloc: Global,
        lower: &[i64],
        upper: &[i64],
        step: &[i32],
        width: &[i32],
    ) -> Result<Range, Memory>
        requires lower { All IsBound lower.now }
        requires upper { All IsBound upper.now }
        requires step { All IsStep step.now }
        requires width { All IsStep width.now }
        requires uppers { length upper.now ≡ length lower.now }
        requires steps { length step.now ≡ length lower.now }
        requires widths { length width.now ≡ length lower.now }
        ensures value { IfOk result (λ r. r ≡ axes_of lower.now upper.now step.now width.now) }
        ensures length { IfOk result (λ r. length r ≡ length lower.now) }
    {
        let mut axes = Vec::new(alloc);
        for k in 0..lower.len() {
            axes.push(Axis {
                lower: lower[k],
                upper: upper[k],
                step: step[k].unsigned_abs(),
                width: width[k].unsigned_abs(),
            })?;
        }
        Ok(Range { axes })
    }

    /// The components.
    pub fn axes(&self) -> &[Axis]
        ensures value { result.now ≡ self.now }
        ensures each { All IsAxis self.now }
    {
        self.axes.as_slice()
    }

    /// Whether an index vector is a member.
    pub fn holds(&self, index: &[i32]) -> bool
        ensures { result ≡ holds_all self.now index.now }
    {
        if index.len() != self.axes.len() {
            return false;
        }
        for k in 0..index.len() {
            if !self.axes[k].holds(index[k]) {
                return false;
            }
        }
        true
    }

    /// Whether an index vector is a member, and for how many vectors from it on along the last axis, of at most so many, that stays so.
    pub fn run_from(&self, index: &[i32], most: usize) -> Run
        requires { 1 ≤ most }
        ensures some { 1 ≤ result.count }
        ensures most { result.count ≤ most }
        ensures same { (j : ℕ) → j < result.count → holds_all self.now (moved_last j index.now) ≡ result.held }
    {
        if index.len() != self.axes.len() {
            return Run::of(false, most);
        }
        if index.is_empty() {
            return Run::of(true, most);
        }
        let last = index.len() - 1;
        for k in 0..last {
            if !self.axes[k].holds(index[k]) {
                return Run::of(false, most);
            }
        }
        self.axes[last].run_from(index[last], most)
    }

    /// An equal range.
    pub fn copy(&self, alloc: Global) -> Result<Range, Memory>
        ensures { IfOk result (λ r. r ≡ self.now) }
    {
        let mut axes = Vec::new(alloc);
        for axis in &self.axes {
            axes.push(axis.copy())?;
        }
        Ok(Range { axes })
    }

    /// The components of the least box that holds the boxes of two ranges, with this range's steps and widths.
    pub fn joined(&self, alloc: Global, other: &Range) -> Result<Range, Memory>
        ensures { IfOk result (λ r. r ≡ joined_range self.now other.now) }
    {
        let mut axes = Vec::new(alloc);
        for k in 0..self.axes.len().min(other.axes.len()) {
            axes.push(self.axes[k].joined(&other.axes[k]))?;
        }
        Ok(Range { axes })
    }

    /// Whether the box from the lower to the upper bound is empty.
    pub fn is_empty(&self) -> bool
        ensures { result ≡ is_empty_box self.now }
    {
        self.axes.iter().any(|axis| axis.is_empty())
    }

    /// Whether no member lies outside a frame.
    pub fn is_within(&self, frame: &Shape) -> bool
        requires { length self.now ≡ length frame.now }
        ensures { result ≡ list_all (lies_in frame.now) (members self.now) }
    {
        let _ = &self.axes;
        self.is_empty() || self.has_axes_within(frame.extents())
    }

    fn has_axes_within(&self, extents: &[i32]) -> bool
        requires some { is_empty_box self.now ≡ false }
        requires extents { All IsExtent extents.now }
        requires axes { length self.now ≡ length extents.now }
        ensures { result ≡ axes_within (map unsigned_abs extents.now) self.now }
    {
        for k in 0..extents.len() {
            if !self.axes[k].is_within(extents[k]) {
                return false;
            }
        }
        true
    }
}

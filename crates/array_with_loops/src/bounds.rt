//! The parts of generators, checked.

ghost use Rattle.std.specs.Prelude.{◌≡◌, ◌≤◌, ◌+ℤ◌, ◌-ℤ◌, pos, length, map, replicate, option_map, int_le, All, Bool, IsTrue, IfOk, IfSome};
ghost use Rattle.std.specs.List.{list_all};
ghost use Rattle.sac_base.specs.Arrays.{ArrayValue};
ghost use Rattle.sac_base.specs.WithLoops.{counts, first_of, names_fit, part_or as part_or_value, raised as raised_value, range_from, lower_of};
ghost use Rattle.sac_base.specs.WithLoops.{upper_of, step_of, range_of, all_positive};
ghost use Rattle.array_with_loops.specs.Plans.{first_some, frame_if, raised_list};
ghost use Rattle.array_with_loops.specs.Ranges.{IsBound, IsStep};
ghost use Rattle.array_ops.specs.Tells.{Tells};

use crate::ranges::Range;
use sac_base::{Array, FaultKind, Memory, Shape, Site, Stop, fault};
use std::alloc::Global;
use std::marker::Model;

/// The parts of a generator that say which indices it holds, evaluated.
#[derive(Drop)]
pub struct Bounds {
    pub lower: Option<Array>,
    pub lower_closed: bool,
    /// How many names its index has, where it is a list.
    pub names: Option<usize>,
    pub upper: Option<Array>,
    pub upper_closed: bool,
    pub step: Option<Array>,
    pub width: Option<Array>,
    pub site: Site,
}

impl Model for Bounds {
    ghost use Rattle.sac_base.specs.WithLoops.{Bounds as BoundsValue};

    ghost Value = { BoundsValue };

    ghost view = { λ b. record {
      lower = b.lower;
      lower_closed = b.lower_closed;
      names = b.names;
      upper = b.upper;
      upper_closed = b.upper_closed;
      step = b.step;
      width = b.width;
      site = b.site;
    } };
}

impl Bounds {
    /// The number of elements of the first part that is given.
    pub fn given_length(&self) -> Option<usize>
        ensures { result ≡ first_some (counts self.now) }
    {
        if let Some(count) = self.names {
            return Some(count);
        }
        if let Some(array) = &self.lower {
            return Some(array.cells().len());
        }
        if let Some(array) = &self.upper {
            return Some(array.cells().len());
        }
        if let Some(array) = &self.step {
            return Some(array.cells().len());
        }
        if let Some(array) = &self.width {
            return Some(array.cells().len());
        }
        None
    }

    /// What the generator holds, where its index has `n` components, which are to be at most `most`. Where the loop is bounded, its members are to
    /// lie in the frame.
    pub fn range(
        &self,
        alloc: Global,
        n: usize,
        most: usize,
        frame: &Shape,
        bounded: bool,
    ) -> Result<Range, Stop>
        requires { IsTrue bounded → n ≤ most → length frame.now ≡ n }
        ensures told { Tells result (range_of n most (frame_if bounded frame.now) frame.now self.now) }
        ensures rank { IfOk result (λ r. length r ≤ 8) }
        ensures length { IfOk result (λ r. length r ≡ n) }
    {
        if n > Shape::MOST || n > most || !self.has_names(n) {
            return Err(fault(FaultKind::F5, self.site));
        }
        let Some(range) = self.axes(alloc, n, frame)? else {
            return Err(fault(FaultKind::F5, self.site));
        };
        if bounded && !range.is_within(frame) {
            return Err(fault(FaultKind::F5, self.site));
        }
        Ok(range)
    }

    // Whether the index has `n` names, if it has a list of them.
    fn has_names(&self, n: usize) -> bool
        ensures { result ≡ names_fit n self.now.names }
    {
        match self.names {
            Some(count) => count == n,
            None => true,
        }
    }

    // The bounds with the lower one in the range and the upper one not, if the parts are vectors of `n` elements and steps and widths are at least 1.
    fn axes(&self, alloc: Global, n: usize, frame: &Shape) -> Result<Option<Range>, Memory>
        ensures value { IfOk result (λ r. r
            ≡ range_from (lower_of n self.now) (upper_of n frame.now self.now) (step_of n self.now.step) (step_of n self.now.width)) }
        ensures length { IfOk result (λ o. IfSome o (λ r. length r ≡ n)) }
    {
        let Some(lower) = self.lower_bound(alloc, n)? else {
            return Ok(None);
        };
        let Some(upper) = self.upper_bound(alloc, n, frame)? else {
            return Ok(None);
        };
        let Some(step) = step_or_ones(alloc, n, &self.step)? else {
            return Ok(None);
        };
        let Some(width) = step_or_ones(alloc, n, &self.width)? else {
            return Ok(None);
        };
        let range = Range::new(alloc, &lower, &upper, &step, &width)?;
        Ok(Some(range))
    }

    // The lower bound, which is in the range.
    fn lower_bound(&self, alloc: Global, n: usize) -> Result<Option<Vec<i64>>, Memory>
        ensures value { IfOk result (λ o. option_map (λ v. v.items) o ≡ lower_of n self.now) }
        ensures length { IfOk result (λ o. IfSome o (λ v. length v.items ≡ n)) }
        ensures bounds { IfOk result (λ o. IfSome o (λ v. All IsBound v.items)) }
    {
        let zeros = filled(alloc, n, 0)?;
        match part_or(alloc, n, zeros, &self.lower)? {
            None => Ok(None),
            Some(lower) => {
                let bound = raised(alloc, &lower, !self.lower_closed)?;
                Ok(Some(bound))
            }
        }
    }

    // The upper bound, which is not.
    fn upper_bound(
        &self,
        alloc: Global,
        n: usize,
        frame: &Shape,
    ) -> Result<Option<Vec<i64>>, Memory>
        ensures value { IfOk result (λ o. option_map (λ v. v.items) o ≡ upper_of n frame.now self.now) }
        ensures length { IfOk result (λ o. IfSome o (λ v. length v.items ≡ n)) }
        ensures bounds { IfOk result (λ o. IfSome o (λ v. All IsBound v.items)) }
    {
        let last = last_index(alloc, frame)?;
        match part_or(alloc, n, last, &self.upper)? {
            None => Ok(None),
            Some(upper) => {
                let bound = raised(alloc, &upper, self.upper_closed)?;
                Ok(Some(bound))
            }
        }
    }
}

// A number so many times.
fn filled(alloc: Global, n: usize, z: i32) -> Result<Vec<i32>, Memory>
    ensures { IfOk result (λ v. v.items ≡ replicate n z) }
{
    let mut zs = Vec::new(alloc);
    for _k in 0..n {
        zs.push(z)?;
    }
    Ok(zs)
}

// The extents less 1.
fn last_index(alloc: Global, frame: &Shape) -> Result<Vec<i32>, Memory>
    ensures { IfOk result (λ v. v.items ≡ map (λ m. pos m -ℤ pos 1) frame.now) }
{
    let mut zs = Vec::new(alloc);
    for n in frame.extents() {
        zs.push(*n - 1)?;
    }
    Ok(zs)
}

// The elements of a part, or what stands for one that is not given, if that is a vector of `n` elements.
fn part_or(
    alloc: Global,
    n: usize,
    otherwise: Vec<i32>,
    part: &Option<Array>,
) -> Result<Option<Vec<i32>>, Memory>
    ensures value { IfOk result (λ o. option_map (λ v. v.items) o ≡ part_or_value n otherwise.items part.now) }
    ensures length { IfOk result (λ o. IfSome o (λ v. length v.items ≡ n)) }
{
    let zs = match part {
        None => otherwise,
        Some(array) => {
            if array.shape().rank() != 1 {
                return Ok(None);
            }
            Vec::from_slice(alloc, array.cells())?
        }
    };
    if zs.len() != n {
        return Ok(None);
    }
    Ok(Some(zs))
}

// The elements of a step or width, of which each is to be at least 1; one that is not given is ones.
fn step_or_ones(alloc: Global, n: usize, part: &Option<Array>) -> Result<Option<Vec<i32>>, Memory>
    ensures value { IfOk result (λ o. option_map (λ v. v.items) o ≡ step_of n part.now) }
    ensures length { IfOk result (λ o. IfSome o (λ v. length v.items ≡ n)) }
    ensures steps { IfOk result (λ o. IfSome o (λ v. All IsStep v.items)) }
{
    let ones = filled(alloc, n, 1)?;
    let Some(zs) = part_or(alloc, n, ones, part)? else {
        return Ok(None);
    };
    if !are_positive(&zs) {
        return Ok(None);
    }
    Ok(Some(zs))
}

fn are_positive(zs: &[i32]) -> bool
    ensures value { result ≡ list_all (int_le (pos 1)) zs.now }
    ensures steps { IsTrue result → All IsStep zs.now }
{
    for z in zs {
        if *z < 1 {
            return false;
        }
    }
    true
}

// The numbers, raised by 1 if asked.
fn raised(alloc: Global, zs: &[i32], raise: bool) -> Result<Vec<i64>, Memory>
    ensures value { IfOk result (λ v. v.items ≡ raised_list raise zs.now) }
    ensures bounds { IfOk result (λ v. All IsBound v.items) }
    ensures length { IfOk result (λ v. length v.items ≡ length zs.now) }
{
    let more = i64::from(raise);
    let mut bounds = Vec::new(alloc);
    for z in zs {
        bounds.push(i64::from(*z) + more)?;
    }
    Ok(bounds)
}

//! What is known of a with-loop before its first cell.

ghost use Rattle.std.specs.Prelude.{◌≡◌, ◌≤◌, ◌+◌, length, map, All, IsTrue, IfOk};
ghost use Rattle.sac_base.specs.Arrays.{ArrayValue, size, MOST};
ghost use Rattle.sac_base.specs.Parts.{shape_of_numbers, vector_of};
ghost use Rattle.sac_base.specs.WithLoops.{index_length as index_length_value, each, range_of, genarray_plan as genarray_value};
ghost use Rattle.sac_base.specs.WithLoops.{modarray_plan as modarray_value, fold_plan as fold_value};
ghost use Rattle.std.specs.Prelude.{Bool};
ghost use Rattle.array_with_loops.specs.Cells.{IsArrayPlan};
ghost use Rattle.array_with_loops.specs.Plans.{frame_if, plan_of};
ghost use Rattle.array_ops.specs.Tells.{Tells, TellsItems, TellsAs};

use crate::bounds::Bounds;
use crate::frames::Frame;
use crate::ranges::Range;
use sac_base::{Array, Base, FaultKind, Form, Op, Shape, Site, Stop, elements, fault};
use std::alloc::Global;

/// An operation whose arguments have been evaluated.
#[derive(Drop)]
pub enum Evaluated {
    Genarray {
        shape: Array,
        default: Array,
        site: Site,
    },
    Modarray {
        array: Array,
        site: Site,
    },
    Fold {
        op: Op,
        neutral: Array,
        site: Site,
    },
}

/// All that is known before the first cell.
#[derive(Drop)]
pub struct Plan {
    /// The range of each generator.
    pub ranges: Vec<Range>,
    /// The indices.
    pub frame: Frame,
    /// What each cell must be.
    pub form: Form,
    /// The shape of the result.
    pub shape: Shape,
}

/// The plan of a genarray.
pub fn genarray_plan(
    alloc: Global,
    bounds: &[Bounds],
    shape: &Array,
    default: &Array,
    site: Site,
) -> Result<Plan, Stop>
    ensures told { TellsAs plan_of result (genarray_value bounds.now (shape_of_numbers (vector_of shape.now)) default.now site) }
    ensures full { IfOk result (λ p. IsArrayPlan Bool.false default.now (plan_of p)) }
{
    let _ = default.cells();
    let Some(frame) = shape_of(alloc, shape) else {
        return Err(fault(FaultKind::F4, site));
    };
    let Some(whole) = frame.joined(default.shape()) else {
        return Err(fault(FaultKind::F4, site));
    };
    if elements(&frame).is_none() || elements(&whole).is_none() {
        return Err(fault(FaultKind::F8, site));
    }
    let ranges = ranges_of(alloc, bounds, frame.rank(), Shape::MOST, &frame, true)?;
    let indices = Frame::of_shape(alloc, &frame)?;
    Ok(Plan {
        ranges,
        frame: indices,
        form: default.form(),
        shape: whole,
    })
}

/// The plan of a modarray.
pub fn modarray_plan(
    alloc: Global,
    bounds: &[Bounds],
    array: &Array,
    site: Site,
) -> Result<Plan, Stop>
    ensures told { TellsAs plan_of result (modarray_value bounds.now (index_length_value bounds.now (length array.now.shape)) array.now site) }
    ensures full { IfOk result (λ p. IsArrayPlan Bool.true array.now (plan_of p)) }
{
    let _ = array.cells();
    modarray_plan_of(alloc, bounds, array.base(), array.shape(), site)
}

/// The plan of a modarray over an array with this base and shape, whatever its cells are.
pub fn modarray_plan_of(
    alloc: Global,
    bounds: &[Bounds],
    base: Base,
    shape: &Shape,
    site: Site,
) -> Result<Plan, Stop>
    ensures told { (array : ArrayValue) → array.base ≡ base → array.shape ≡ shape.now
        → TellsAs plan_of result (modarray_value bounds.now (index_length_value bounds.now (length array.shape)) array site) }
    ensures full { (array : ArrayValue) → array.shape ≡ shape.now → size array.shape ≤ MOST → length array.cells ≡ size array.shape
        → IfOk result (λ p. IsArrayPlan Bool.true array (plan_of p)) }
{
    let rank = shape.rank();
    let n = index_length(bounds, rank);
    let frame = shape.first(n);
    let ranges = ranges_of(alloc, bounds, n, rank, &frame, true)?;
    if elements(&frame).is_none() {
        return Err(fault(FaultKind::F8, site));
    }
    let indices = Frame::of_shape(alloc, &frame)?;
    Ok(Plan {
        ranges,
        frame: indices,
        form: Form {
            base,
            shape: shape.rest(n.min(rank)),
        },
        shape: shape.copy(),
    })
}

/// The plan of a fold.
pub fn fold_plan(
    alloc: Global,
    bounds: &[Bounds],
    neutral: &Array,
    site: Site,
) -> Result<Plan, Stop>
    ensures { TellsAs plan_of result (fold_value bounds.now (index_length_value bounds.now 0) neutral.now site) }
{
    let n = index_length(bounds, 0);
    let ranges = ranges_of(alloc, bounds, n, Shape::MOST, &Shape::empty(alloc), false)?;
    let Some(indices) = Frame::of_ranges(alloc, &ranges)? else {
        return Err(fault(FaultKind::F8, site));
    };
    Ok(Plan {
        ranges,
        frame: indices,
        form: neutral.form(),
        shape: neutral.shape().copy(),
    })
}

// The shape that a vector gives, if it gives one.
fn shape_of(alloc: Global, array: &Array) -> Option<Shape>
    ensures { result ≡ shape_of_numbers (vector_of array.now) }
{
    if array.shape().rank() != 1 {
        return None;
    }
    Shape::from_extents(alloc, array.cells())
}

/// The length of the index: that of the first part that is given.
pub fn index_length(bounds: &[Bounds], otherwise: usize) -> usize
    ensures { result ≡ index_length_value bounds.now otherwise }
{
    for g in bounds {
        if let Some(n) = g.given_length() {
            return n;
        }
    }
    otherwise
}

/// The range of each generator, whose index has `n` components, or the fault of the first that is bad. Where the loop is bounded, all members are
/// to lie in the frame.
pub fn ranges_of(
    alloc: Global,
    bounds: &[Bounds],
    n: usize,
    most: usize,
    frame: &Shape,
    bounded: bool,
) -> Result<Vec<Range>, Stop>
    requires { IsTrue bounded → n ≤ most → length frame.now ≡ n }
    ensures told { TellsItems result (each (range_of n most (frame_if bounded frame.now) frame.now) bounds.now) }
    ensures ranks { IfOk result (λ v. All (λ r. length r ≤ 8) v.items) }
    ensures lengths { IfOk result (λ v. All (λ r. length r ≡ n) v.items) }
{
    let mut ranges = Vec::new(alloc);
    for g in bounds {
        let range = g.range(alloc, n, most, frame, bounded)?;
        ranges.push(range)?;
    }
    Ok(ranges)
}

//! Frames that have an index, and their extents.

ghost use Rattle.std.specs.Prelude.{◌↔◌, IsTrue};
ghost use Rattle.merge_plans.specs.Filled.{IsFilled, IsFilledAxis};

use sac_base::Grid1;

/// Whether axes have these extents, and some vector lies in them.
pub fn is_filled(axes: &[Grid1], extents: &[i32]) -> bool
    ensures { IsTrue result ↔ IsFilled axes.now extents.now }
{
    match axes.split_first() {
        None => extents.is_empty(),
        Some((axis, inner)) => match extents.split_first() {
            None => false,
            Some((extent, others)) => is_filled_axis(axis, *extent) && is_filled(inner, others),
        },
    }
}

fn is_filled_axis(axis: &Grid1, extent: i32) -> bool
    ensures { IsTrue result ↔ IsFilledAxis axis.now extent }
{
    match axis.hi.checked_sub(axis.lo) {
        Some(length) => 0 < length && length == i64::from(extent),
        None => false,
    }
}

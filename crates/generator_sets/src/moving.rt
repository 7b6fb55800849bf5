ghost use Rattle.std.specs.Prelude.{◌≡◌, ℕ, ◌<◌, ℤ, ◌+ℤ◌, length, List, slice_index_or, FitsSigned};
ghost use Rattle.std.specs.List.{AllZip};
ghost use Rattle.std.specs.Int.{w64};
ghost use Rattle.sac_base.specs.Grids.{has_vector};
ghost use Rattle.generator_sets.specs.Pieces.{moved};

use sac_base::{Grid, Grid1};

/// The grid of one axis, moved.
fn shift_axis(axis: &Grid1, by: i32) -> Grid1
    requires lo { FitsSigned w64 (axis.now.lo +ℤ by) }
    requires hi { FitsSigned w64 (axis.now.hi +ℤ by) }
    ensures lo { result.lo ≡ axis.now.lo +ℤ by }
    ensures hi { result.hi ≡ axis.now.hi +ℤ by }
    ensures step { result.step ≡ axis.now.step }
    ensures width { result.width ≡ axis.now.width }
{
    Grid1 {
        lo: axis.lo + by as i64,
        hi: axis.hi + by as i64,
        step: axis.step,
        width: axis.width,
    }
}

/// The grid whose members are those of `a`, each moved by the vector.
pub fn shift(a: Grid, by: &[i32]) -> Grid
    requires axes { length by.now ≡ length a }
    requires fits { AllZip (λ axis y. FitsSigned w64 (axis.lo +ℤ y) × FitsSigned w64 (axis.hi +ℤ y)) a by.now }
    ensures { (v : List ℤ) → has_vector result (moved v by.now) ≡ has_vector a v }
{
    let mut axes = a.into_axes();
    for k in 0..axes.len() {
        axes[k] = shift_axis(&axes[k], by[k]);
    }
    Grid::new(axes)
}

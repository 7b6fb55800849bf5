ghost use Rattle.std.specs.Prelude.{◌≡◌, ℤ, pos, ◌-ℤ◌, ◌≤ℤ◌, ◌<ℤ◌, ◌≤◌, unsigned_abs, IfSome, IfNone, false};
ghost use Rattle.sac_base.specs.Grids.{has_index};
ghost use Rattle.grid_spans.specs.Spans.{IsSpan, IsGreatest, gap_after};

use sac_base::Grid1;

/// The least and the greatest member of a grid on one axis.
#[derive(Clone, Copy, Debug, PartialEq, Eq)]
pub struct Span {
    pub least: i64,
    pub greatest: i64,
}

/// The least and the greatest member, or None exactly where there is none.
pub fn span_of(axis: &Grid1) -> Option<Span>
    ensures some { IfSome result (λ found. IsSpan axis.now found.least found.greatest) }
    ensures none { IfNone result ((x : ℤ) → has_index axis.now x ≡ false) }
{
    if axis.lo < axis.hi {
        Some(Span {
            least: axis.lo,
            greatest: greatest(axis),
        })
    } else {
        None
    }
}

/// The greatest member.
fn greatest(axis: &Grid1) -> i64
    requires { axis.now.lo <ℤ axis.now.hi }
    ensures { IsGreatest axis.now result }
{
    let last = last_inside(axis);
    let gap = gap_behind(axis, last);
    down(axis.lo, last, gap)
}

/// The number below the upper bound.
fn last_inside(axis: &Grid1) -> i64
    requires { axis.now.lo <ℤ axis.now.hi }
    ensures { result ≡ axis.now.hi -ℤ pos 1 }
{
    let _lo = axis.lo;
    axis.hi - 1
}

/// How far the greatest member up to a number lies below it.
fn gap_behind(axis: &Grid1, last: i64) -> u64
    requires { axis.now.lo ≤ℤ last }
    ensures { result ≡ gap_after axis.now last }
{
    let step = axis.step.unsigned_abs();
    let width = axis.width.unsigned_abs();
    let phase = last.abs_diff(axis.lo) % step;
    if phase < width { 0 } else { phase - width + 1 }
}

/// The number so far below another, which is not below the lower bound.
fn down(lo: i64, from: i64, by: u64) -> i64
    requires low { lo ≤ℤ from }
    requires inside { by ≤ unsigned_abs (from -ℤ lo) }
    ensures { result ≡ from -ℤ pos by }
{
    from.wrapping_sub_unsigned(by)
}

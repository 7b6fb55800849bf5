ghost use Rattle.std.specs.Prelude.{◌≡◌, ◌≤ℤ◌, ◌<ℤ◌, ◌⊎◌};
ghost use Rattle.std.specs.List.{All};
ghost use Rattle.grid_sets.specs.Segments.{NoCut, IsBound, IsFirstSegment};

use sac_base::Grid1;

/// The whole numbers from `from` on and below `to`.
#[derive(Clone, Copy, Debug, PartialEq, Eq)]
pub struct Segment {
    pub from: i64,
    pub to: i64,
}

/// The segment up to the place, where that lies inside it.
fn cut_at(segment: &Segment, place: i64) -> Segment
    requires { segment.now.from <ℤ segment.now.to }
    ensures from { result.from ≡ segment.now.from }
    ensures some { segment.now.from <ℤ result.to }
    ensures low { result.to ≤ℤ segment.now.to }
    ensures clear { (place ≤ℤ segment.now.from) ⊎ (result.to ≤ℤ place) }
    ensures end { (result.to ≡ segment.now.to) ⊎ (result.to ≡ place) }
{
    if segment.from < place && place < segment.to {
        Segment {
            from: segment.from,
            to: place,
        }
    } else {
        *segment
    }
}

/// The front of the segment that no grid begins or ends in.
pub(crate) fn first_segment(rest: &Segment, grids: &[Grid1]) -> Segment
    requires { rest.now.from <ℤ rest.now.to }
    ensures from { result.from ≡ rest.now.from }
    ensures first { IsFirstSegment rest.now.from rest.now.to grids.now result.to }
{
    let mut segment = *rest;
    for grid in grids {
        segment = cut_at(&cut_at(&segment, grid.lo), grid.hi);
    }
    segment
}

/// What is left of the segment behind its front.
pub(crate) fn behind(front: &Segment, segment: &Segment) -> Segment
    ensures from { result.from ≡ front.now.to }
    ensures to { result.to ≡ segment.now.to }
{
    Segment {
        from: front.to,
        to: segment.to,
    }
}

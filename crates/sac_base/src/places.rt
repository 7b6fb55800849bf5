//! Places of cells in row-major order.

ghost use Rattle.std.specs.Prelude.{◌≡◌, ◌≤◌, ◌<◌, ◌+◌, [], length, map, min, unsigned_abs, All, Some, SomeIff};
ghost use Rattle.sac_base.specs.Arrays.{size, MOST};
ghost use Rattle.sac_base.specs.Parts.{part_at};
ghost use Rattle.sac_base.specs.Places.{place_of, vector_at, is_below};
ghost use Rattle.sac_base.specs.Shapes.{IsExtent};

use crate::Shape;

/// The most elements that an array may have.
pub const MOST_ELEMENTS: u64 = 16_777_216;

/// The number of elements of an array of this shape. There is none exactly where it is above 16,777,216.
pub fn elements(shape: &Shape) -> Option<u64>
    ensures { SomeIff result (size shape.now ≤ MOST) (size shape.now) }
{
    let all = capped_product(shape.extents());
    if all <= MOST_ELEMENTS {
        Some(all)
    } else {
        None
    }
}

// The product of extents, or one more than an array may have elements where it is greater.
fn capped_product(extents: &[i32]) -> u64
    requires { All IsExtent extents.now }
    ensures { result ≡ min (MOST + 1) (size (map unsigned_abs extents.now)) }
{
    let mut all = 1;
    for n in extents {
        all = (all * u64::from(n.unsigned_abs())).min(MOST_ELEMENTS + 1);
    }
    all
}

/// The place at which the part of an array at an index vector begins, in row-major order. There is none exactly where the vector is longer than the
/// shape or a component lies outside its extent.
pub fn offset(shape: &Shape, index: &[i32]) -> Option<u64>
    requires { size shape.now ≤ MOST }
    ensures { result ≡ place_of shape.now index.now }
{
    let extents = shape.extents();
    if index.len() > extents.len() {
        return None;
    }
    let mut stride = capped_product(&extents[index.len()..]);
    let mut start = 0;
    let mut k = index.len();
    while k > 0 {
        k -= 1;
        if !is_component(index[k], extents[k]) {
            return None;
        }
        start += u64::from(index[k].unsigned_abs()) * stride;
        stride = (stride * u64::from(extents[k].unsigned_abs())).min(MOST_ELEMENTS + 1);
    }
    Some(start)
}

// Whether a component of an index vector lies in its extent.
fn is_component(i: i32, n: i32) -> bool
    requires { IsExtent n }
    ensures { result ≡ is_below i (unsigned_abs n) }
{
    0 <= i && i < n
}

/// Writes the index vector of a place.
pub fn index_at(shape: &Shape, place: u64, into: &mut [i32])
    requires inside { place < size shape.now }
    requires fits { length into.old ≡ length shape.now }
    ensures value { into.new ≡ vector_at shape.now place }
    ensures place { part_at shape.now into.new ≡ Some (record { start = place; shape = [] }) }
{
    let extents = shape.extents();
    let mut rest = place;
    let mut k = extents.len();
    while k > 0 {
        k -= 1;
        let n = u64::from(extents[k].unsigned_abs());
        into[k] = (rest % n) as i32;
        rest /= n;
    }
}

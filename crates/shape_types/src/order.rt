//! The order of types. A type stands for the arrays that it contains, and a known shape counts as having arrays, whatever its size.

ghost use Rattle.std.specs.Prelude.{◌≡◌, ◌↔◌, IsTrue, IsSome, IfSome, is_some};
ghost use Rattle.sac_base.specs.Types.{below as is_below, overlap, part_below, has_shape, IsBelow, Overlap};
ghost use Rattle.shape_types.specs.Bounds.{IsMeet, IsJoin, part_join, rank_of, wider_part};

use sac_base::{ArrayType, Part, copy_part, copy_type, part_has, same_base};

/// Whether each array of the first type is one of the second.
pub fn below(a: &ArrayType, b: &ArrayType) -> bool
    ensures value { result ≡ is_below a.now b.now }
    ensures order { IsTrue result ↔ IsBelow a.now b.now }
{
    is_type_below(a, b)
}

fn is_type_below(a: &ArrayType, b: &ArrayType) -> bool
    ensures { result ≡ is_below a.now b.now }
{
    a.base == b.base && is_part_below(&a.part, &b.part)
}

fn is_part_below(a: &Part, b: &Part) -> bool
    ensures { result ≡ part_below a.now b.now }
{
    match (a, b) {
        (Part::Known(shape), part) => part_has(part, shape),
        (Part::Rank(m), Part::Known(shape)) => *m == 0 && shape.rank() == 0,
        (Part::Rank(m), Part::Rank(n)) => m == n,
        (Part::Rank(m), Part::Plus) => *m >= 1,
        (Part::Plus, Part::Plus) => true,
        (_, Part::Star) => true,
        _ => false,
    }
}

/// The type of the arrays that both types contain. There is none exactly where they have no array in common.
pub fn meet(a: &ArrayType, b: &ArrayType) -> Option<ArrayType>
    ensures both { IfSome result (λ t. IsMeet a.now b.now t) }
    ensures some { IsSome result ↔ Overlap a.now b.now }
    ensures value { is_some result ≡ overlap a.now b.now }
{
    if below(a, b) {
        Some(copy_type(a))
    } else if below(b, a) {
        Some(copy_type(b))
    } else {
        None
    }
}

/// The least type that each of two types is below. There is none exactly where their bases differ.
pub fn join(a: &ArrayType, b: &ArrayType) -> Option<ArrayType>
    ensures least { IfSome result (λ t. IsJoin a.now b.now t) }
    ensures some { IsSome result ↔ (a.now.base ≡ b.now.base) }
{
    if !same_base(a.base, b.base) {
        return None;
    }
    Some(ArrayType {
        base: a.base,
        part: join_parts(&a.part, &b.part),
    })
}

fn join_parts(a: &Part, b: &Part) -> Part
    ensures { result ≡ part_join a.now b.now }
{
    if is_part_below(a, b) {
        return copy_part(b);
    }
    if is_part_below(b, a) {
        return copy_part(a);
    }
    wider(rank(a), rank(b))
}

// The number of extents, where it is known.
fn rank(part: &Part) -> Option<u32>
    ensures { result ≡ rank_of part.now }
{
    match part {
        Part::Known(shape) => Some(shape.rank() as u32),
        Part::Rank(rank) => Some(*rank),
        Part::Plus | Part::Star => None,
    }
}

// The least part above two of these ranks, neither of which is below the other.
fn wider(a: Option<u32>, b: Option<u32>) -> Part
    ensures { result ≡ wider_part a b }
{
    match (a, b) {
        (Some(m), Some(n)) if m == n => Part::Rank(m),
        (Some(m), _) if m == 0 => Part::Star,
        (_, Some(n)) if n == 0 => Part::Star,
        _ => Part::Plus,
    }
}

//! Shapes.

ghost use Rattle.std.specs.Prelude.{◌≡◌, ◌+◌, ◌≤◌, ◌↔◌, [], ◌∷◌, ◌++◌, pos, unsigned_abs, length, map, take, drop, Some, IsSome, IfSome};
ghost use Rattle.sac_base.specs.Shapes.{IsShape, AreExtents, AreNatural, IsExtent};
ghost use Rattle.sac_base.specs.Parts.{shape_of_numbers};
ghost use Rattle.sac_base.specs.Arrays.{same_shape as same_extents};

use smallvec::SmallVec;
use std::alloc::Global;
use std::marker::Model;

/// The extents of an array: at most 8 numbers, none of them negative. They lie in the value itself, so a copy takes no memory.
#[derive(Drop)]
pub struct Shape {
    extents: SmallVec<i32, 8>,
}

impl Model for Shape {
    ghost use Rattle.std.specs.Prelude.{List, ℕ, map, unsigned_abs};
    ghost use Rattle.sac_base.specs.Shapes.{AreExtents};

    ghost Value = { List ℕ };

    ghost view = { λ shape. map unsigned_abs shape.extents.items };

    ghost invariant = { λ shape. AreExtents shape.extents.items };
}

impl Shape {
    /// The most extents.
    pub const MOST: usize = 8;

    /// The shape of these extents. There is none exactly where they are more than 8 or one is negative.
    pub fn from_extents(alloc: Global, extents: &[i32]) -> Option<Shape>
        ensures fits { IsSome result ↔ AreNatural extents.now }
        ensures value { IfSome result (λ shape. map pos shape ≡ extents.now) }
        ensures exact { result ≡ shape_of_numbers (Some extents.now) }
    {
        if extents.len() > Self::MOST {
            return None;
        }
        for n in extents {
            if *n < 0 {
                return None;
            }
        }
        let extents = SmallVec::from_slice(alloc, extents).unwrap();
        Some(Shape { extents })
    }

    /// The shape of a scalar.
    pub fn empty(alloc: Global) -> Shape
        ensures { result ≡ [] }
    {
        Shape {
            extents: SmallVec::new(alloc),
        }
    }

    /// The extents, from the outermost to the innermost.
    pub fn extents(&self) -> &[i32]
        ensures value { result.now ≡ map pos self.now }
        ensures extents { AreExtents result.now }
        ensures shape { IsShape self.now }
    {
        self.extents.as_slice()
    }

    /// The shape of a vector of `n` elements.
    pub fn vector(alloc: Global, n: i32) -> Shape
        requires { IsExtent n }
        ensures { result ≡ unsigned_abs n ∷ [] }
    {
        let mut extents = SmallVec::new(alloc);
        extents.push_reserved(n);
        Shape { extents }
    }

    /// How many extents there are.
    pub fn rank(&self) -> usize
        ensures value { result ≡ length self.now }
        ensures small { result ≤ 8 }
    {
        self.extents.len()
    }

    /// An equal shape.
    pub fn copy(&self) -> Shape
        ensures { result ≡ self.now }
    {
        let extents = SmallVec::from_slice(
            *self.extents.allocator(),
            self.extents.as_slice(),
        ).unwrap();
        Shape { extents }
    }

    /// The first `n` extents, or all where there are fewer.
    pub fn first(&self, n: usize) -> Shape
        ensures { result ≡ take n self.now }
    {
        let mut shape = self.copy();
        shape.extents.truncate(n);
        shape
    }

    /// The extents from the `n`th on, counted from 0.
    pub fn rest(&self, n: usize) -> Shape
        requires { n ≤ length self.now }
        ensures { result ≡ drop n self.now }
    {
        let extents = SmallVec::from_slice(
            *self.extents.allocator(),
            &self.extents.as_slice()[n..],
        ).unwrap();
        Shape { extents }
    }

    /// These extents followed by others. There is no such shape exactly where they are more than 8 together.
    pub fn joined(&self, after: &Shape) -> Option<Shape>
        ensures fits { IsSome result ↔ (length self.now + length after.now ≤ 8) }
        ensures value { IfSome result (λ shape. shape ≡ self.now ++ after.now) }
    {
        if self.rank() + after.rank() > Self::MOST {
            return None;
        }
        let mut extents = SmallVec::from_slice(*self.extents.allocator(), self.extents()).unwrap();
        extents.extend_from_slice(after.extents()).unwrap();
        Some(Shape { extents })
    }
}

/// Whether two shapes have the same extents.
pub fn same_shape(a: &Shape, b: &Shape) -> bool
    ensures { result ≡ same_extents a.now b.now }
{
    a.extents() == b.extents()
}

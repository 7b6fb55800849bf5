ghost use Rattle.std.specs.Prelude.{◌≡◌};
ghost use Rattle.sac_base.specs.Types.{has_form, has_shape, has as has_array};

use crate::{Array, Base, Form, Shape, same_shape};

/// The shapes that a type allows.
#[derive(Drop)]
pub enum Part {
    Known(Shape),
    /// A number of extents, from 1 to 8.
    Rank(u32),
    /// At least one extent.
    Plus,
    Star,
}

/// A type of arrays.
#[derive(Drop)]
pub struct ArrayType {
    pub base: Base,
    pub part: Part,
}

/// Whether the type contains the arrays of this form.
pub fn has(ty: &ArrayType, form: &Form) -> bool
    ensures { result ≡ has_form ty.now form.now }
{
    ty.base == form.base && part_has(&ty.part, &form.shape)
}

/// Whether the type contains the array.
pub fn contains(ty: &ArrayType, array: &Array) -> bool
    ensures { result ≡ has_array ty.now array.now }
{
    ty.base == array.base() && part_has(&ty.part, array.shape())
}

/// Whether the part allows the shape.
pub fn part_has(part: &Part, shape: &Shape) -> bool
    ensures { result ≡ has_shape part.now shape.now }
{
    match part {
        Part::Known(known) => same_shape(known, shape),
        Part::Rank(rank) => shape.rank() == *rank as usize,
        Part::Plus => shape.rank() >= 1,
        Part::Star => true,
    }
}

/// An equal type.
pub fn copy_type(ty: &ArrayType) -> ArrayType
    ensures { result ≡ ty.now }
{
    ArrayType {
        base: ty.base,
        part: copy_part(&ty.part),
    }
}

/// An equal part.
pub fn copy_part(part: &Part) -> Part
    ensures { result ≡ part.now }
{
    match part {
        Part::Known(shape) => Part::Known(shape.copy()),
        Part::Rank(rank) => Part::Rank(*rank),
        Part::Plus => Part::Plus,
        Part::Star => Part::Star,
    }
}

//! Which values a type contains.
//!
//! A type looks at the base and at the extents alone, so no heap is asked for.

ghost use Rattle.std.specs.Prelude.{◌≡◌, IfOk, map, unsigned_abs};
ghost use Rattle.counted_code.specs.Values.{Heap, read};
ghost use Rattle.run_types.specs.Reading.{arrays_in};
ghost use Rattle.run_values.specs.Shown.{value_of, shape_of as shape_of_value};
ghost use Rattle.sac_base.specs.Arrays.{same_shape};
ghost use Rattle.sac_base.specs.Types.{has, has_shape, all_have as all_have_arrays};

use run_values::RunValue;
use sac_base::{ArrayType, Cell, Memory, Part, Shape};
use std::alloc::Global;

/// The shape of a value. Extents that no array has, which do not occur in code, count as want of memory.
pub fn shape_of(alloc: Global, value: &RunValue) -> Result<Shape, Memory>
    ensures { IfOk result (λ shape. shape ≡ shape_of_value (value_of value.now)) }
{
    let extents = value.extents();
    Shape::from_extents(alloc, extents.as_slice()).ok_or(Memory)
}

/// Whether the type contains the value.
pub fn value_has(ty: &ArrayType, value: &RunValue) -> bool
    ensures { (h : Heap) → result ≡ has ty.now (read h (value_of value.now)) }
{
    let extents = value.extents();
    ty.base == value.base() && allows(&ty.part, extents.as_slice())
}

/// Whether the types contain the values, and are as many.
pub fn all_have(types: &[ArrayType], values: &[RunValue]) -> bool
    ensures { (h : Heap) → result ≡ all_have_arrays types.now (arrays_in h values.now) }
{
    if types.len() != values.len() {
        return false;
    }
    for k in 0..types.len() {
        if !value_has(&types[k], &values[k]) {
            return false;
        }
    }
    true
}

// Whether the part allows a shape of these extents.
fn allows(part: &Part, extents: &[Cell]) -> bool
    ensures { result ≡ has_shape part.now (map unsigned_abs extents.now) }
{
    match part {
        Part::Known(shape) => are_equal(shape.extents(), extents),
        Part::Rank(rank) => extents.len() == *rank as usize,
        Part::Plus => extents.len() >= 1,
        Part::Star => true,
    }
}

// Whether two shapes have the same extents.
fn are_equal(extents: &[Cell], others: &[Cell]) -> bool
    ensures { result ≡ same_shape (map unsigned_abs extents.now) (map unsigned_abs others.now) }
{
    if extents.len() != others.len() {
        return false;
    }
    for k in 0..extents.len() {
        if extents[k].unsigned_abs() != others[k].unsigned_abs() {
            return false;
        }
    }
    true
}

ghost use Rattle.std.specs.Prelude.{◌≡◌, ◌+◌, ◌^◌, ◌<◌, ◌≤◌, ◌≤ℤ◌, IfOk, Some, replicate, pos, unsigned_abs};
ghost use Rattle.sac_base.specs.Parts.{short};
ghost use Rattle.data_text.specs.Found.{Tells, TellsOne};
ghost use Rattle.data_text.specs.Generated.{generated_element as generated_element_value, generated_number as generated_number_value};
ghost use Rattle.data_text.specs.Generated.{generated_shape as generated_shape_value, generated_cells as generated_cells_value, generated_all};
ghost use Rattle.data_text.specs.Generated.{generated};

use crate::error::{DataCode, DataError};
use sac_base::{Array, ArrayType, Base, Cell, Memory, Part, Shape, elements};
use std::alloc::Global;

// The element that a generated number is.
fn generated_element(base: Base, number: u32) -> Cell
    requires { number < 1000 }
    ensures { result ≡ generated_element_value base number }
{
    match base {
        Base::Int => number as Cell,
        Base::Bool if number % 2 == 0 => 1,
        Base::Bool => 0,
    }
}

// The number of element k of the array for a parameter.
fn generated_number(parameter: u64, k: u64) -> u32
    ensures value { result ≡ generated_number_value parameter k }
    ensures small { result < 1000 }
{
    ((k % 1000 * 1103 + parameter % 1000 * 12345 + 7) % 1000) as u32
}

// The elements of the array for a parameter, as many as asked for.
fn generated_cells(
    alloc: Global,
    base: Base,
    parameter: u64,
    count: u64,
) -> Result<Vec<Cell>, Memory>
    ensures { IfOk result (λ cells. cells.items ≡ generated_cells_value base parameter count) }
{
    let cells = (0..count).map(|k| generated_element(base, generated_number(parameter, k)));
    Ok(cells.collect(alloc)?)
}

// The shape of the array for a parameter of this part, if it is one.
fn generated_shape(alloc: Global, part: &Part, n: i32) -> Option<Shape>
    requires { pos 0 ≤ℤ n }
    ensures { result ≡ short (Some (generated_shape_value part.now (unsigned_abs n))) }
{
    match part {
        Part::Known(shape) => Some(shape.copy()),
        Part::Rank(rank) => uniform(alloc, *rank, n),
        Part::Plus | Part::Star => uniform(alloc, 1, n),
    }
}

// The shape of so many equal extents, if there are at most 8.
fn uniform(alloc: Global, rank: u32, n: i32) -> Option<Shape>
    requires { pos 0 ≤ℤ n }
    ensures { result ≡ short (Some (replicate rank (unsigned_abs n))) }
{
    let extents = [n; Shape::MOST];
    let rank = rank as usize;
    if rank > Shape::MOST {
        return None;
    }
    Shape::from_extents(alloc, &extents[..rank])
}

// The array for a parameter of this type.
fn generated_array(
    alloc: Global,
    ty: &ArrayType,
    parameter: u64,
    n: u32,
) -> Result<Array, DataError>
    requires number { parameter + 1 < 2 ^ 64 }
    requires extent { n ≤ 4096 }
    ensures { TellsOne result (generated ty.now parameter n) }
{
    let refused = DataError::Refused(DataCode::I6, parameter + 1);
    let Some(shape) = generated_shape(alloc, &ty.part, n as i32) else {
        return Err(refused);
    };
    let Some(count) = elements(&shape) else {
        return Err(refused);
    };
    let cells = generated_cells(alloc, ty.base, parameter, count)?;
    Ok(Array::new(ty.base, shape, cells))
}

/// Generated arrays for parameters of these types. A known shape stays as it is, a known rank has `n` in each extent,
/// and of the other types the array has the one extent `n`. Element k of parameter p, both from 0, is
/// `(k * 1103 + p * 12345 + 7) mod 1000`, or whether that is even.
///
/// # Errors
///
/// `Refused` with `I6` and the number of the first parameter, from 1, whose shape has more than 16,777,216 elements
/// (or more than 8 extents).
pub fn generate(alloc: Global, params: &[ArrayType], n: u32) -> Result<Vec<Array>, DataError>
    requires { (1 ≤ n) × (n ≤ 4096) }
    ensures { Tells result (generated_all params.now 0 n) }
{
    let mut arrays = Vec::new(alloc);
    let mut parameter: u64 = 0;
    for ty in params {
        match generated_array(alloc, ty, parameter, n) {
            Ok(array) => arrays.push(array)?,
            Err(error) => return Err(error),
        }
        parameter += 1;
    }
    Ok(arrays)
}

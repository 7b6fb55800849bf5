//! Parts of arrays, and the built-in functions on shapes.

ghost use Rattle.std.specs.Prelude.{◌≡◌, length, IfOk};
ghost use Rattle.sac_base.specs.Parts.{select as select_value, replace as replace_value, reshape as reshape_value, dim as dim_value};
ghost use Rattle.sac_base.specs.Parts.{shape_vector as shape_vector_value, condition as condition_value, part_at_index, numbers_of};
ghost use Rattle.array_ops.specs.Answers.{Gives};
ghost use Rattle.array_ops.specs.Regions.{IsRegion};

use crate::ArrayError;
use sac_base::{Array, Base, Cell, FaultKind, Memory, Shape, elements, offset, same_shape};
use std::alloc::Global;

/// The part of an array at an index: a vector, or a scalar for a vector of one element.
///
/// Fault: F1 where there is no such part.
pub fn select(alloc: Global, a: &Array, index: &Array) -> Result<Array, ArrayError>
    ensures { Gives result (select_value a.now index.now) }
{
    let Some(region) = region_at(a, index) else {
        return Err(ArrayError::Faulted(FaultKind::F1));
    };
    let cells = copy_cells(alloc, &a.cells()[region.start..region.end])?;
    Ok(Array::new(a.base(), region.shape, cells))
}

/// The array with another part at an index.
///
/// Faults: F1 where there is no such part, and then F6 where the new part has another base or shape.
pub fn replace(alloc: Global, a: &Array, index: &Array, part: &Array) -> Result<Array, ArrayError>
    ensures { Gives result (replace_value a.now index.now part.now) }
{
    let Some(region) = region_at(a, index) else {
        return Err(ArrayError::Faulted(FaultKind::F1));
    };
    if part.base() != a.base() || !same_shape(part.shape(), &region.shape) {
        return Err(ArrayError::Faulted(FaultKind::F6));
    }
    let old = a.cells();
    let mut cells = copy_cells(alloc, &old[..region.start])?;
    cells.extend_from_slice(part.cells())?;
    cells.extend_from_slice(&old[region.end..])?;
    Ok(Array::new(a.base(), a.shape().copy(), cells))
}

/// The cells of an array under another shape, which a vector gives.
///
/// Faults: F4 where the first array is no vector of at most 8 extents that are not negative, and then F3 where the numbers of elements differ.
pub fn reshape(alloc: Global, shape: &Array, a: &Array) -> Result<Array, ArrayError>
    ensures { Gives result (reshape_value shape.now a.now) }
{
    if shape.shape().rank() != 1 {
        return Err(ArrayError::Faulted(FaultKind::F4));
    }
    let Some(extents) = Shape::from_extents(alloc, shape.cells()) else {
        return Err(ArrayError::Faulted(FaultKind::F4));
    };
    if elements(&extents) != Some(a.cells().len() as u64) {
        return Err(ArrayError::Faulted(FaultKind::F3));
    }
    let cells = copy_cells(alloc, a.cells())?;
    Ok(Array::new(a.base(), extents, cells))
}

/// The rank of an array.
pub fn dim(alloc: Global, a: &Array) -> Result<Array, Memory>
    ensures { IfOk result (λ rank. rank ≡ dim_value a.now) }
{
    Array::scalar(alloc, Base::Int, a.shape().rank() as i32)
}

/// The extents of an array, as a vector.
pub fn shape_vector(alloc: Global, a: &Array) -> Result<Array, Memory>
    ensures { IfOk result (λ extents. extents ≡ shape_vector_value a.now) }
{
    let cells = copy_cells(alloc, a.shape().extents())?;
    Ok(Array::vector(alloc, Base::Int, cells))
}

/// What a condition says: 0 is false, and any other number is true. There is no answer exactly for an array that is no scalar.
pub fn condition(a: &Array) -> Option<bool>
    ensures { result ≡ condition_value a.now }
{
    match a.as_scalar() {
        Some(n) => Some(n != 0),
        None => None,
    }
}

// Where the cells of a part of an array lie, and its shape.
#[derive(Drop)]
struct Region {
    start: usize,
    end: usize,
    shape: Shape,
}

fn region_at(a: &Array, index: &Array) -> Option<Region>
    ensures { IsRegion result (part_at_index a.now (numbers_of index.now)) (length a.now.cells) }
{
    if index.shape().rank() > 1 {
        return None;
    }
    let _cells = a.cells();
    let vector = index.cells();
    match offset(a.shape(), vector) {
        Some(start) => {
            let start = start as usize;
            let shape = a.shape().rest(vector.len());
            let end = start + elements(&shape).unwrap() as usize;
            Some(Region { start, end, shape })
        }
        None => None,
    }
}

fn copy_cells(alloc: Global, cells: &[Cell]) -> Result<Vec<Cell>, Memory>
    ensures { IfOk result (λ copy. copy.items ≡ cells.now) }
{
    let mut copy = Vec::new(alloc);
    copy.extend_from_slice(cells)?;
    Ok(copy)
}

//! Array literals.

ghost use Rattle.std.specs.Prelude.{◌≡◌, All, IfOk, OnOk};
ghost use Rattle.std.specs.List.{list_all};
ghost use Rattle.sac_base.specs.Arrays.{same_form as equal_forms, IsFull};
ghost use Rattle.sac_base.specs.Parts.{literal as literal_value, cells_of_all};
ghost use Rattle.array_ops.specs.Answers.{Gives};

use crate::ArrayError;
use sac_base::{Array, Base, Cell, FaultKind, Memory, Shape, elements, same_form};
use std::alloc::Global;

/// The array of these elements, one after another. The empty literal is a vector of no numbers.
///
/// Faults: F3 where the elements differ in base or shape, F4 where the rank would be above 8, and F8 where there would be too many cells.
/// Want of memory is answered also where an extent would be above 2,147,483,647, since each element has a place in memory.
pub fn literal(alloc: Global, items: &[Array]) -> Result<Array, ArrayError>
    ensures { Gives result (literal_value items.now) }
{
    let Some(first) = items.first() else {
        return Ok(Array::vector(alloc, Base::Int, Vec::new(alloc)));
    };
    let Ok(length) = i32::try_from(items.len()) else {
        return Err(ArrayError::Memory);
    };
    if !all_have_form(first, &items[1..]) {
        return Err(ArrayError::Faulted(FaultKind::F3));
    }
    let Some(shape) = Shape::vector(alloc, length).joined(first.shape()) else {
        return Err(ArrayError::Faulted(FaultKind::F4));
    };
    if elements(&shape).is_none() {
        return Err(ArrayError::Faulted(FaultKind::F8));
    }
    let cells = all_cells(alloc, items)?;
    Ok(Array::new(first.base(), shape, cells))
}

fn all_have_form(first: &Array, others: &[Array]) -> bool
    ensures { result ≡ list_all (equal_forms first.now) others.now }
{
    others.iter().all(|other| same_form(first, other))
}

// The cells of arrays, one after another.
fn all_cells(alloc: Global, items: &[Array]) -> Result<Vec<Cell>, Memory>
    ensures cells { IfOk result (λ cells. cells.items ≡ cells_of_all items.now) }
    ensures full { OnOk result (All IsFull items.now) }
{
    let mut cells = Vec::new(alloc);
    for item in items {
        cells.extend_from_slice(item.cells())?;
    }
    Ok(cells)
}

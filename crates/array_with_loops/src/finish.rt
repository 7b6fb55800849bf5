//! What is made of the cells of a with-loop.

ghost use Rattle.std.specs.Prelude.{◌≡◌, ◌≤◌, ◌+◌, ◌*◌, ◌++◌, IsTrue, length, OnOk, Ok};
ghost use Rattle.sac_base.specs.Arrays.{size, MOST};
ghost use Rattle.sac_base.specs.WithLoops.{combined, fits_form as fits_form_value};
ghost use Rattle.array_with_loops.specs.Cells.{cell_from};
ghost use Rattle.array_ops.specs.Tells.{Tells};

use array_ops::{ArrayError, binary};
use sac_base::{Array, Form, Memory, Op, Shape, Stop, elements, same_shape};
use std::alloc::Global;

/// How many elements a cell of a shape has, where they are not more than an array's.
pub fn cell_size(shape: &Shape) -> usize
    ensures { size shape.now ≤ MOST → result ≡ size shape.now }
{
    match elements(shape) {
        Some(n) => n as usize,
        None => 0,
    }
}

/// Appends the cell at a place. Where there is none, the old cell stands in its place, of so many elements, or else the default.
pub fn add_cell(
    cells: &mut Vec<i32>,
    background: &Array,
    old: bool,
    place: usize,
    size: usize,
    cell: &Option<Array>,
) -> Result<(), Memory>
    requires { IsTrue old → place * size + size ≤ length background.now.cells }
    ensures { OnOk result (cells.new.items ≡ cells.old.items ++ cell_from old background.now size place cell.now) }
{
    match cell {
        Some(cell) => cells.extend_from_slice(cell.cells())?,
        None => {
            let stands = background.cells();
            if old {
                let start = place * size;
                let end = start + size;
                cells.extend_from_slice(&stands[start..end])?;
            } else {
                cells.extend_from_slice(stands)?;
            }
        }
    }
    Ok(())
}

/// The operator between a value and a cell of its shape.
pub fn combine(alloc: Global, op: Op, value: Array, cell: &Option<Array>) -> Result<Array, Stop>
    ensures { Tells result (Ok (combined op value cell.now)) }
{
    match cell {
        None => Ok(value),
        Some(cell) => match binary(alloc, op, &value, cell) {
            Ok(array) => Ok(array),
            Err(ArrayError::Faulted(_)) => Ok(value),
            Err(ArrayError::Memory) => Err(Stop::Memory),
        },
    }
}

/// Whether a cell has a form.
pub fn fits_form(form: &Form, array: &Array) -> bool
    ensures told { result ≡ fits_form_value form.now array.now }
    ensures sized { IsTrue result → length array.now.cells ≡ size form.now.shape }
{
    let _ = array.cells();
    array.base() == form.base && same_shape(array.shape(), &form.shape)
}

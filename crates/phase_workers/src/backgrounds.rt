//! What stands where an index has no cell, read where it lies.

ghost use Rattle.std.specs.Prelude.{◌≡◌, ◌∷◌, [], IfOk};
ghost use Rattle.phase_workers.specs.Backgrounds.{IsAside, IsBackground, KeptAside, LieIn, base_made};

use buffer_heap::Heap;
use phase_loop_cells::Background;
use run_loops::{CellLoop, LoopResult};
use run_values::RunValue;
use sac_base::{Base, Cell, Memory};
use std::alloc::Global;

/// The cells of what stands where an index has no cell, if it is small, before the phase begins. One in a buffer stays there.
///
/// # Errors
///
/// `Memory`: also where its buffer is not in, which does not happen in well-counted code.
pub fn set_aside(alloc: Global, work: &CellLoop<'_>, heap: &Heap) -> Result<Vec<Cell>, Memory>
    ensures { IfOk result (λ cells. KeptAside heap.now work.now.result cells.items) }
{
    match work.result {
        LoopResult::Filled { array, old: _ } => small_cells(alloc, array, heap),
        _ => Ok(Vec::new(alloc)),
    }
}

// The cells of a small array, and none of one in a buffer, which is in.
fn small_cells(alloc: Global, array: RunValue, heap: &Heap) -> Result<Vec<Cell>, Memory>
    ensures { IfOk result (λ cells. IsAside heap.now array cells.items) }
{
    match array {
        RunValue::Unbound => one_cell(alloc, 0),
        RunValue::Word(_, n) => one_cell(alloc, n),
        RunValue::Short(_, few) => {
            let cells = Vec::from_slice(alloc, few.as_slice())?;
            Ok(cells)
        }
        RunValue::Buffer(_, id, _) => {
            if heap.is_held(id) {
                Ok(Vec::new(alloc))
            } else {
                Err(Memory)
            }
        }
    }
}

fn one_cell(alloc: Global, n: Cell) -> Result<Vec<Cell>, Memory>
    ensures { IfOk result (λ cells. cells.items ≡ n ∷ []) }
{
    let mut cells = Vec::new(alloc);
    cells.push(n)?;
    Ok(cells)
}

/// What stands where an index has no cell of so many elements, and nothing where each index must have one.
pub fn background_of<'a>(
    work: &CellLoop<'_>,
    size: usize,
    aside: &'a [Cell],
    heap: &'a Heap,
) -> Option<Background<'a>>
    requires { KeptAside heap.now work.now.result aside.now }
    ensures { IsBackground heap.now work.now.result size result }
{
    match work.result {
        LoopResult::Filled { array, old } => Some(Background {
            cells: cells_of(array, aside, heap),
            old,
            size,
        }),
        _ => None,
    }
}

// The cells of an array: those in its buffer, or those that were set aside.
fn cells_of<'a>(array: RunValue, aside: &'a [Cell], heap: &'a Heap) -> &'a [Cell]
    requires { IsAside heap.now array aside.now }
    ensures { LieIn heap.now array result.now }
{
    match array {
        RunValue::Buffer(_, id, _) => heap.cells(id),
        _ => aside,
    }
}

/// The base of the array that is made.
pub fn base_of(work: &CellLoop<'_>) -> Base
    ensures { result ≡ base_made work.now.result work.now.plan.now.form }
{
    match work.result {
        LoopResult::Filled { array, old: _ } => array.base(),
        _ => work.plan.form.base,
    }
}

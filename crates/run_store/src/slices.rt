//! Parts of arrays in buffers.

ghost use Rattle.std.specs.Prelude.{◌≡◌, ◌≤◌, ◌+◌, length, take, drop, map, unsigned_abs, IfOk};
ghost use Rattle.counted_code.specs.Values.{Heap as MachineHeap, cells_of};
ghost use Rattle.sac_base.specs.Arrays.{size, MOST};
ghost use Rattle.array_ops.specs.Tells.{Tells};
ghost use Rattle.run_store.specs.Selects.{part_in, part_of};
ghost use Rattle.run_store.specs.Stands.{Stands};
ghost use Rattle.run_values.specs.Numbers.{numbers};

use crate::access::buffer_cells;
use crate::store::Store;
use buffer_heap::BufferId;
use run_values::Few;
use sac_base::{Array, Base, Cell, FaultKind, Memory, Shape, Site, Stop, elements, fault, offset};
use std::alloc::Global;

/// The part at an index of an array in a buffer. No other cell is read.
pub fn buffer_part(
    alloc: Global,
    heap: &Store<'_>,
    base: Base,
    id: BufferId,
    extents: &Few,
    index: &Few,
    site: Site,
) -> Result<Array, Stop>
    ensures { (m : MachineHeap) → Stands heap.now m → Tells result (part_in m id.born base (map unsigned_abs (numbers extents.now)) (numbers index.now) site) }
{
    let Some(shape) = Shape::from_extents(alloc, extents.as_slice()) else {
        return Err(Stop::Memory);
    };
    let cells = match buffer_cells(heap, id) {
        Ok(cells) => cells,
        Err(Memory) => return Err(Stop::Memory),
    };
    if elements(&shape) != Some(cells.len() as u64) {
        return Err(Stop::Memory);
    }
    part_of_cells(alloc, base, &shape, cells, index.as_slice(), site)
}

// The part at an index of an array of these cells.
fn part_of_cells(
    alloc: Global,
    base: Base,
    shape: &Shape,
    cells: &[Cell],
    index: &[Cell],
    site: Site,
) -> Result<Array, Stop>
    requires full { length cells.now ≡ size shape.now }
    requires most { size shape.now ≤ MOST }
    ensures { Tells result (part_of base shape.now cells.now index.now site) }
{
    match offset(shape, index) {
        Some(start) => {
            let rest = shape.rest(index.len());
            match copied_part(alloc, base, rest, cells, start as usize) {
                Ok(part) => Ok(part),
                Err(Memory) => Err(Stop::Memory),
            }
        }
        None => Err(fault(FaultKind::F1, site)),
    }
}

// The array of this shape whose cells begin at a place.
fn copied_part(
    alloc: Global,
    base: Base,
    shape: Shape,
    cells: &[Cell],
    start: usize,
) -> Result<Array, Memory>
    requires within { start + size shape ≤ length cells.now }
    requires most { length cells.now ≤ MOST }
    ensures { IfOk result (λ a. a ≡ record { base = base; shape = shape; cells = take (size shape) (drop start cells.now) }) }
{
    let len = elements(&shape).unwrap() as usize;
    let part = Vec::from_slice(alloc, &cells[start..start + len])?;
    Ok(Array::new(base, shape, part))
}

//! Selections.

ghost use Rattle.std.specs.Prelude.{◌≡◌, [], ◌∷◌, take, drop, map, unsigned_abs, IfOk, IfSome, Some, Ok};
ghost use Rattle.counted_code.specs.Values.{Heap as MachineHeap, read, cells_of};
ghost use Rattle.sac_base.specs.Arrays.{vector};
ghost use Rattle.sac_base.specs.declared.base.Base.{Base as BaseOf};
ghost use Rattle.array_ops.specs.Tells.{Tells};
ghost use Rattle.sac_base.specs.Parts.{part_at, numbers_of};
ghost use Rattle.run_store.specs.Selects.{selected_in, IsCellAt, IsElement};
ghost use Rattle.run_store.specs.Stands.{Stands, TellsPlaced, lender_of};
ghost use Rattle.run_values.specs.Numbers.{numbers};
ghost use Rattle.run_values.specs.Shown.{value_of};

use crate::access::buffer_cells;
use crate::arrays::{place_result, read_array};
use crate::slices::buffer_part;
use crate::store::Store;
use array_ops::select_at;
use buffer_heap::BufferId;
use run_values::{Few, RunValue};
use sac_base::{Array, Cell, MOST_ELEMENTS, Memory, Site, Stop};
use std::alloc::Global;

/// The part of an array at an index. Of an array in a buffer that part alone is read.
pub fn select_value(
    alloc: Global,
    heap: &mut Store<'_>,
    array: RunValue,
    index: RunValue,
    site: Site,
) -> Result<RunValue, Stop>
    ensures told { (m : MachineHeap) → Stands heap.old m → TellsPlaced result heap.new m (selected_in m array index site) }
    ensures lender { lender_of heap.new ≡ lender_of heap.old }
{
    match find_cell(heap, &array, &index)? {
        Some(n) => Ok(RunValue::Word(array.base(), n)),
        None => select_part(alloc, heap, array, index, site),
    }
}

// The part at any index.
#[inline(never)]
fn select_part(
    alloc: Global,
    heap: &mut Store<'_>,
    array: RunValue,
    index: RunValue,
    site: Site,
) -> Result<RunValue, Stop>
    ensures told { (m : MachineHeap) → Stands heap.old m → TellsPlaced result heap.new m (selected_in m array index site) }
    ensures lender { lender_of heap.new ≡ lender_of heap.old }
{
    let part = copy_part(alloc, heap, array, index, site);
    place_result(heap, part)
}

fn copy_part(
    alloc: Global,
    heap: &Store<'_>,
    array: RunValue,
    index: RunValue,
    site: Site,
) -> Result<Array, Stop>
    ensures { (m : MachineHeap) → Stands heap.now m → Tells result (selected_in m array index site) }
{
    let Some(few) = index_numbers(&index) else {
        return copy_any_part(alloc, heap, array, index, site);
    };
    match array {
        RunValue::Buffer(base, id, extents) => {
            buffer_part(alloc, heap, base, id, &extents, &few, site)
        }
        _ => copy_any_part(alloc, heap, array, index, site),
    }
}

// The numbers of an index that the value holds itself.
pub(crate) fn index_numbers(index: &RunValue) -> Option<Few>
    ensures { (m : MachineHeap) → IfSome result (λ few. numbers_of (read m (value_of index.now)) ≡ Some (numbers few)) }
{
    match index {
        RunValue::Short(_, few) => Some(*few),
        RunValue::Word(_, n) => Some(Few::one(*n)),
        _ => None,
    }
}

// The part of any array at any index.
fn copy_any_part(
    alloc: Global,
    heap: &Store<'_>,
    array: RunValue,
    index: RunValue,
    site: Site,
) -> Result<Array, Stop>
    ensures { (m : MachineHeap) → Stands heap.now m → Tells result (selected_in m array index site) }
{
    let array = read_array(alloc, heap, array)?;
    let index = read_array(alloc, heap, index)?;
    select_at(alloc, &array, &index, site)
}

// The element at an index of full length that lies in the array. Where there is none, nothing is said.
fn find_cell(heap: &Store<'_>, array: &RunValue, index: &RunValue) -> Result<Option<Cell>, Memory>
    ensures { (m : MachineHeap) → Stands heap.now m → IfOk result (IsCellAt m array.now index.now) }
{
    match index {
        RunValue::Short(_, few) => select_cell(heap, array, few),
        RunValue::Word(_, n) => select_cell(heap, array, &Few::one(*n)),
        _ => Ok(None),
    }
}

fn select_cell(heap: &Store<'_>, array: &RunValue, index: &Few) -> Result<Option<Cell>, Memory>
    ensures { (m : MachineHeap) → Stands heap.now m → IfOk result (IsElement (read m (value_of array.now)) (numbers index.now)) }
{
    match array {
        RunValue::Buffer(_, id, extents) => buffer_cell(heap, *id, extents, index),
        RunValue::Short(_, few) => Ok(short_cell(few, index)),
        _ => Ok(None),
    }
}

fn buffer_cell(
    heap: &Store<'_>,
    id: BufferId,
    extents: &Few,
    index: &Few,
) -> Result<Option<Cell>, Memory>
    ensures { (m : MachineHeap) → Stands heap.now m → (base : BaseOf)
        → IfOk result (IsElement (record { base = base; shape = map unsigned_abs (numbers extents.now); cells = cells_of m id.born }) (numbers index.now)) }
{
    let Some(place) = cell_place(extents.as_slice(), index.as_slice()) else {
        return Ok(None);
    };
    let cells = buffer_cells(heap, id)?;
    Ok(cell_at(cells, place))
}

fn short_cell(few: &Few, index: &Few) -> Option<Cell>
    ensures { (base : BaseOf) → IsElement (vector base (numbers few.now)) (numbers index.now) result }
{
    let extents = Few::one(few.len() as Cell);
    let Some(place) = cell_place(extents.as_slice(), index.as_slice()) else {
        return None;
    };
    cell_at(few.as_slice(), place)
}

fn cell_at(cells: &[Cell], place: usize) -> Option<Cell>
    ensures { IfSome result (λ n. take 1 (drop place cells.now) ≡ n ∷ []) }
{
    match cells.get(place) {
        Some(n) => Some(*n),
        None => None,
    }
}

// The row-major place of an index of full length, where it lies in the extents and is no greater than that of any array.
pub(crate) fn cell_place(extents: &[Cell], index: &[Cell]) -> Option<usize>
    ensures { IfSome result (λ k. part_at (map unsigned_abs extents.now) index.now ≡ Some (record { start = k; shape = [] })) }
{
    if extents.len() != index.len() {
        return None;
    }
    let mut place = 0;
    for k in 0..extents.len() {
        let n = extents[k];
        let i = index[k];
        if i < 0 || i >= n {
            return None;
        }
        place = place * u64::from(n.unsigned_abs()) + u64::from(i.unsigned_abs());
        if place > MOST_ELEMENTS {
            return None;
        }
    }
    Some(place as usize)
}

//! Results of loops that are not finished yet.

ghost use Rattle.buffer_heap.specs.Heaps.{Held, at};
ghost use Rattle.std.specs.Prelude.{◌≡◌, ◌≤◌, ℕ, [], ◌∷◌, None, Some, length, map, unsigned_abs, IfOk, OnOk};
ghost use Rattle.counted_code.specs.Loops.{Inside, Fresh, claim as claimed, claim_new, settled};
ghost use Rattle.counted_code.specs.Values.{Heap as MachineHeap, Small, read, is_small as is_small_shape};
ghost use Rattle.run_store.specs.Stands.{Stands, Placed, lender_of};
ghost use Rattle.run_store.specs.Targets.{target_of, IsClaimed, IsCopied, IsWritten};
ghost use Rattle.run_values.specs.Shown.{value_of, shape_of};
ghost use Rattle.sac_base.specs.Arrays.{size, same_shape, MOST};
ghost use Rattle.sac_base.specs.WithLoops.{fits_form};

use crate::access::buffer_cells;
use crate::arrays::extents_of;
use crate::store::Store;
use buffer_heap::BufferId;
use run_values::{RunValue, small_value};
use sac_base::{Base, Cell, Form, Memory, Shape, elements, same_base};
use std::alloc::Global;

/// The cells of a result, and the buffer that they are lifted from, if the result is not small.
#[derive(Drop)]
pub struct Target {
    pub cells: Vec<Cell>,
    pub buffer: Option<BufferId>,
}

/// Whether a value holds an array of this shape itself.
pub fn is_small(shape: &Shape) -> bool
    ensures { result ≡ is_small_shape shape.now }
{
    match shape.extents() {
        [] => true,
        [n] => *n <= 8,
        _ => false,
    }
}

/// A result of this shape, with as many cells as it has, of any numbers. The buffers of the own heap stay as they are.
pub fn claim(alloc: Global, heap: &mut Store<'_>, shape: &Shape) -> Result<Target, Memory>
    ensures cells { IfOk result (λ t. length t.cells.items ≡ size shape.now) }
    ensures claimed { (m : MachineHeap) → Stands heap.old m
        → IfOk result (λ t. IsClaimed t heap.new (claimed (is_small_shape shape.now) None (size shape.now) m)) }
    ensures others { (b : ℕ) (x : Held) → at heap.old.own b ≡ Some x → at heap.new.own b ≡ Some x }
    ensures lender { lender_of heap.new ≡ lender_of heap.old }
{
    let Some(len) = elements(shape) else {
        return Err(Memory);
    };
    if is_small(shape) {
        claim_inside(alloc, len)
    } else {
        claim_buffer(heap, len)
    }
}

fn claim_inside(alloc: Global, len: u64) -> Result<Target, Memory>
    ensures cells { IfOk result (λ t. length t.cells.items ≡ len) }
    ensures inside { IfOk result (λ t. target_of t ≡ Inside) }
{
    let mut cells = Vec::new(alloc);
    cells.resize(len as usize, 0)?;
    Ok(Target {
        cells,
        buffer: None,
    })
}

fn claim_buffer(heap: &mut Store<'_>, len: u64) -> Result<Target, Memory>
    requires { len ≤ MOST }
    ensures cells { IfOk result (λ t. length t.cells.items ≡ len) }
    ensures claimed { (m : MachineHeap) → Stands heap.old m → IfOk result (λ t. IsClaimed t heap.new (claim_new len None m)) }
    ensures others { (b : ℕ) (x : Held) → at heap.old.own b ≡ Some x → at heap.new.own b ≡ Some x }
    ensures lender { lender_of heap.new ≡ lender_of heap.old }
{
    let (id, cells) = heap.own.claim(len)?;
    Ok(Target {
        cells,
        buffer: Some(id),
    })
}

/// The finished result as a value.
pub fn settle(
    heap: &mut Store<'_>,
    target: Target,
    base: Base,
    shape: &Shape,
) -> Result<RunValue, Memory>
    ensures placed { (m : MachineHeap) → Stands heap.old m
        → IfOk result (λ v. Placed v heap.new (settled (target_of target) (record { base = base; shape = shape.now; cells = target.cells.items }) m)) }
    ensures lender { lender_of heap.new ≡ lender_of heap.old }
{
    match target.buffer {
        None => settle_inside(base, shape, &target.cells),
        Some(id) => settle_buffer(heap, id, target.cells, base, shape),
    }
}

fn settle_inside(base: Base, shape: &Shape, cells: &[Cell]) -> Result<RunValue, Memory>
    ensures { IfOk result (λ v. value_of v ≡ Small (record { base = base; shape = shape.now; cells = cells.now })) }
{
    if elements(shape) != Some(cells.len() as u64) {
        return Err(Memory);
    }
    match small_value(base, shape, cells) {
        Some(value) => Ok(value),
        None => Err(Memory),
    }
}

fn settle_buffer(
    heap: &mut Store<'_>,
    id: BufferId,
    cells: Vec<Cell>,
    base: Base,
    shape: &Shape,
) -> Result<RunValue, Memory>
    ensures placed { (m : MachineHeap) → Stands heap.old m
        → IfOk result (λ v. Placed v heap.new (settled (Fresh id.born) (record { base = base; shape = shape.now; cells = cells.items }) m)) }
    ensures lender { lender_of heap.new ≡ lender_of heap.old }
{
    let extents = extents_of(shape);
    if !heap.own.is_lifted(id, cells.len()) {
        return Err(Memory);
    }
    heap.own.settle(id, cells);
    Ok(RunValue::Buffer(base, id, extents))
}

/// Whether a value has a form.
pub fn fits(form: &Form, value: &RunValue) -> bool
    ensures { (m : MachineHeap) → result ≡ fits_form form.now (read m (value_of value.now)) }
{
    same_base(value.base(), form.base) && has_shape(&form.shape, value)
}

fn has_shape(shape: &Shape, value: &RunValue) -> bool
    ensures { result ≡ same_shape (shape_of (value_of value.now)) shape.now }
{
    match value {
        RunValue::Unbound | RunValue::Word(_, _) => shape.rank() == 0,
        _ => {
            let extents = value.extents();
            same_sizes(extents.as_slice(), shape.extents())
        }
    }
}

/// Whether extents are the same.
pub fn same_sizes(a: &[Cell], b: &[Cell]) -> bool
    ensures { result ≡ same_shape (map unsigned_abs a.now) (map unsigned_abs b.now) }
{
    if a.len() != b.len() {
        return false;
    }
    for k in 0..a.len() {
        if a[k].unsigned_abs() != b[k].unsigned_abs() {
            return false;
        }
    }
    true
}

/// Writes the cells of a value from a place on.
pub fn write(
    heap: &Store<'_>,
    cells: &mut [Cell],
    start: usize,
    value: &RunValue,
) -> Result<(), Memory>
    ensures { (m : MachineHeap) → Stands heap.now m → OnOk result (IsWritten start (read m (value_of value.now)).cells cells.old cells.new) }
{
    match value {
        RunValue::Unbound => write_word(cells, start, 0),
        RunValue::Word(_, n) => write_word(cells, start, *n),
        RunValue::Short(_, few) => overwrite(cells, start, few.as_slice()),
        RunValue::Buffer(_, id, _) => overwrite(cells, start, buffer_cells(heap, *id)?),
    }
}

pub(crate) fn write_word(cells: &mut [Cell], start: usize, n: Cell) -> Result<(), Memory>
    ensures { OnOk result (IsWritten start (n ∷ []) cells.old cells.new) }
{
    if start >= cells.len() {
        return Err(Memory);
    }
    cells[start] = n;
    Ok(())
}

/// Writes the cells of a value that has as many.
pub fn copy_into(heap: &Store<'_>, cells: &mut [Cell], value: &RunValue) -> Result<(), Memory>
    ensures { (m : MachineHeap) → Stands heap.now m → OnOk result (IsCopied (read m (value_of value.now)).cells cells.old cells.new) }
{
    match value {
        RunValue::Unbound => copy_all(cells, &[0]),
        RunValue::Word(_, n) => copy_all(cells, &[*n]),
        RunValue::Short(_, few) => copy_all(cells, few.as_slice()),
        RunValue::Buffer(_, id, _) => copy_all(cells, buffer_cells(heap, *id)?),
    }
}

fn copy_all(cells: &mut [Cell], part: &[Cell]) -> Result<(), Memory>
    ensures { OnOk result (IsCopied part.now cells.old cells.new) }
{
    if part.len() != cells.len() {
        return Err(Memory);
    }
    cells.copy_from_slice(part);
    Ok(())
}

/// Writes cells from a place on.
pub fn overwrite(cells: &mut [Cell], start: usize, part: &[Cell]) -> Result<(), Memory>
    ensures { OnOk result (IsWritten start part.now cells.old cells.new) }
{
    if start > cells.len() || part.len() > cells.len() - start {
        return Err(Memory);
    }
    let end = start + part.len();
    cells[start..end].copy_from_slice(part);
    Ok(())
}

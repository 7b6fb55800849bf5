//! What is known of variables before the first turn of a loop, or the first cell.

ghost use Rattle.std.specs.Prelude.{◌≡◌, ◌≤◌, ℕ, ℤ, List, IfOk, IfSome, OnOk, length, map, take, unsigned_abs};
ghost use Rattle.buffer_heap.specs.Heaps.{In, IsLive, IsNamed, at, content_of};
ghost use Rattle.core_ir.specs.declared.tree.Var.{Var};
ghost use Rattle.core_ir.specs.Meaning.{Env};
ghost use Rattle.counted_code.specs.Values.{Heap as MachineHeap, cells_of};
ghost use Rattle.kernel_tree.specs.declared.tree.Held.TheVariants.{Numbers, Whole};
ghost use Rattle.kernel_code.specs.Relations.{IsScope};
ghost use Rattle.run_kernels.specs.Scopes.{IsShown};
ghost use Rattle.run_store.specs.Stands.{Stands};
ghost use Rattle.run_values.specs.Numbers.{numbers};
ghost use Rattle.run_values.specs.Scopes.{current};
ghost use Rattle.run_values.specs.Shown.{value_of};

use buffer_heap::{BufferId, Heap};
use core_ir::Var;
use kernel_buffers::Buffer;
use kernel_tree::Held;
use run_store::{Store, buffer_cells};
use run_values::{Few, Frames, RunValue};
use sac_base::{Base, Cell, Memory, Shape, elements};
use std::alloc::Global;

/// Buffers whose cells can be read where they lie.
pub trait ReadsBuffers {
    /// That the buffer of a number has these cells.
    ghost has: { Self → ℕ → List ℤ → Type 0 };

    /// The cells of a buffer, if it is there.
    fn cells_of(&self, id: BufferId) -> Option<&[Cell]>
        ensures { IfSome result (λ cells. has self.now id.born cells.now) };
}

impl<'s> ReadsBuffers for Store<'s> {
    ghost has = { λ s born cells. (m : MachineHeap) → Stands s m → cells ≡ cells_of m born };

    fn cells_of(&self, id: BufferId) -> Option<&[Cell]> {
        match buffer_cells(self, id) {
            Ok(cells) => Some(cells),
            Err(Memory) => None,
        }
    }
}

impl ReadsBuffers for Heap {
    ghost has = { λ h born cells. (place : ℕ) × IsLive h place (IsNamed born) × (content_of (at h place) ≡ In cells) };

    fn cells_of(&self, id: BufferId) -> Option<&[Cell]> {
        if !self.is_held(id) {
            return None;
        }
        Some(self.cells(id))
    }
}

/// Where the values of variables are that are scalars, short vectors, or buffers of rank 1 or 2, and these buffers.
#[derive(Drop)]
pub struct Scope<'a> {
    pub known: Vec<(Var, Held)>,
    pub buffers: Vec<Buffer<'a>>,
}

/// The scope of these variables of the call that runs. A variable whose value is of another kind is left out.
pub fn scope_of<'a, H: ReadsBuffers>(
    alloc: Global,
    variables: &[Var],
    frames: &Frames<'_>,
    heap: &'a H,
) -> Result<Scope<'a>, Memory>
    ensures { (e : Env) → ((x : Var) → IsShown (H.has heap.now) (current frames.now x) (e x))
        → IfOk result (λ s. IsScope s.buffers.items e s.known.items) }
{
    let mut known = Vec::new(alloc);
    let mut buffers = Vec::new(alloc);
    for x in variables {
        add_value(alloc, &mut known, &mut buffers, *x, frames.get(*x), heap)?;
    }
    Ok(Scope { known, buffers })
}

// Adds a variable with its value, if that is a scalar or a short vector, or a buffer of rank 1 or 2 and there are not too many.
fn add_value<'a, H: ReadsBuffers>(
    alloc: Global,
    known: &mut Vec<(Var, Held)>,
    buffers: &mut Vec<Buffer<'a>>,
    x: Var,
    value: RunValue,
    heap: &'a H,
) -> Result<(), Memory>
    ensures { (e : Env) → IsShown (H.has heap.now) (value_of value) (e x) → IsScope buffers.old.items e known.old.items
        → OnOk result (IsScope buffers.new.items e known.new.items) }
{
    match value {
        RunValue::Word(base, n) => {
            known.push((x, Held::Number(base, n)))?;
            Ok(())
        }
        RunValue::Short(base, few) => {
            known.push((x, numbers_of(base, &few)))?;
            Ok(())
        }
        RunValue::Buffer(base, id, extents) => {
            let Some(buffer) = borrowed(alloc, base, id, &extents, heap) else {
                return Ok(());
            };
            let rank = buffer.shape().rank();
            let number = buffers.len();
            if rank < 1 || rank > 2 || number > 255 {
                return Ok(());
            }
            buffers.push(buffer)?;
            known.push((x, whole(base, rank, number)))?;
            Ok(())
        }
        RunValue::Unbound => Ok(()),
    }
}

// A short vector, whose numbers are known.
fn numbers_of(base: Base, few: &Few) -> Held
    ensures { (ks : List ℤ) × (result ≡ Numbers base ks (length (numbers few.now))) × (take (length (numbers few.now)) ks ≡ numbers few.now) }
{
    let mut cells = [0; 8];
    let list = few.as_slice();
    for k in 0..list.len() {
        cells[k] = list[k];
    }
    Held::Numbers(base, cells, list.len() as u8)
}

// The buffer of this number.
fn whole(base: Base, rank: usize, number: usize) -> Held
    requires rank { rank ≤ 2 }
    requires number { number ≤ 255 }
    ensures { result ≡ Whole base rank number }
{
    Held::Whole(base, rank as u8, number as u8)
}

// The array of a buffer, where it lies, if it is there and has as many cells as these extents say.
fn borrowed<'a, H: ReadsBuffers>(
    alloc: Global,
    base: Base,
    id: BufferId,
    extents: &Few,
    heap: &'a H,
) -> Option<Buffer<'a>>
    ensures { IfSome result (λ b. (cells : List ℤ) × H.has heap.now id.born cells
        × (b ≡ record { base = base; shape = map unsigned_abs (numbers extents.now); cells = cells })) }
{
    let shape = Shape::from_extents(alloc, extents.as_slice())?;
    let cells = heap.cells_of(id)?;
    if elements(&shape) != Some(cells.len() as u64) {
        return None;
    }
    Some(Buffer::new(base, shape, cells))
}

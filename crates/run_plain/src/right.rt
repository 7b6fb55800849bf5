//! Right sides without blocks and calls.

ghost use Rattle.std.specs.Prelude.{◌≡◌, Ok, IsTrue, map, pos, unsigned_abs};
ghost use Rattle.counted_code.specs.Machine.{plain_does};
ghost use Rattle.counted_code.specs.Values.{Heap as MachineHeap, Small, read};
ghost use Rattle.counted_code.specs.View.{code_right_term};
ghost use Rattle.core_ir.specs.Meaning.{checked};
ghost use Rattle.run_store.specs.Stands.{Stands, TellsPlaced, lender_of};
ghost use Rattle.run_plain.specs.Reads.{TellsChecked, TellsPlain};
ghost use Rattle.run_values.specs.Scopes.{current};
ghost use Rattle.run_values.specs.Shown.{value_of};
ghost use Rattle.run_store.specs.declared.store.Store.{Store as StoreOf};
ghost use Rattle.sac_base.specs.Outcomes.{at_site};
ghost use Rattle.sac_base.specs.Parts.{dim, shape_vector};

use crate::arrays::{replace_value, reshape_value};
use crate::operators::{binary_value, literal_value, unary_value};
use counted_code::CodeRight;
use run_store::{Store, place_array, select_value};
use run_types::value_has;
use run_values::{Few, Frames, RunValue};
use sac_base::{Array, ArrayType, Base, Cell, FaultKind, Memory, Site, Stop, fault};
use shared_strips::Strips;
use std::alloc::Global;

/// The value of a right side that has no block and no call, with nothing kept or released. Of any other right side nothing is said.
/// The elements of an operator of two operands are computed by `strips` where they are many.
pub fn plain_value<S: Strips>(
    right: &CodeRight,
    site: Site,
    alloc: Global,
    heap: &mut Store<'_>,
    frames: &Frames<'_>,
    strips: &S,
) -> Result<RunValue, Stop>
    ensures told { (m : MachineHeap) → Stands heap.old m → TellsPlain (code_right_term right.now) site (current frames.now) result heap.new m }
    ensures lender { lender_of heap.new ≡ lender_of heap.old }
{
    match right {
        CodeRight::Const(array) => const_value(alloc, heap, array),
        CodeRight::Copy(x) => Ok(frames.get(*x)),
        CodeRight::Unary(op, x) => unary_value(alloc, heap, *op, frames.get(*x)),
        CodeRight::Binary(op, x, y) => {
            let first = frames.get(*x);
            binary_value(alloc, heap, *op, first, frames.get(*y), site, strips)
        }
        CodeRight::Select(x, y) => select_value(alloc, heap, frames.get(*x), frames.get(*y), site),
        _ => other_value(right, site, alloc, heap, frames),
    }
}

// The value of a right side that loops over scalars seldom have. A function of its own, so that those which they have run in a small frame.
#[inline(never)]
fn other_value(
    right: &CodeRight,
    site: Site,
    alloc: Global,
    heap: &mut Store<'_>,
    frames: &Frames<'_>,
) -> Result<RunValue, Stop>
    ensures told { (m : MachineHeap) → Stands heap.old m → TellsPlain (code_right_term right.now) site (current frames.now) result heap.new m }
    ensures lender { lender_of heap.new ≡ lender_of heap.old }
{
    match right {
        CodeRight::Literal(xs) => literal_value(alloc, heap, frames, xs, site),
        CodeRight::Dim(x) => Ok(dim_value(&frames.get(*x))),
        CodeRight::ShapeOf(x) => shape_value(&frames.get(*x)),
        CodeRight::Reshape(x, y) => {
            reshape_value(alloc, heap, frames.get(*x), frames.get(*y), site)
        }
        CodeRight::Replace(x, y, z) => {
            let array = frames.get(*x);
            replace_value(alloc, heap, array, frames.get(*y), frames.get(*z), site)
        }
        CodeRight::Always(kind) => Err(fault(*kind, site)),
        CodeRight::Check(x, ty) => checked_value(frames.get(*x), ty, site),
        _ => Err(Stop::Memory),
    }
}

#[inline(never)]
fn const_value(alloc: Global, heap: &mut Store<'_>, array: &Array) -> Result<RunValue, Stop>
    ensures told { (m : MachineHeap) → Stands heap.old m → TellsPlaced result heap.new m (Ok array.now) }
    ensures lender { lender_of heap.new ≡ lender_of heap.old }
{
    match place_array(alloc, heap, array) {
        Ok(value) => Ok(value),
        Err(Memory) => Err(Stop::Memory),
    }
}

// The number of extents.
fn dim_value(value: &RunValue) -> RunValue
    ensures { (m : MachineHeap) → value_of result ≡ Small (dim (read m (value_of value.now))) }
{
    RunValue::Word(Base::Int, value.rank() as Cell)
}

// The extents as a vector. Extents that no array has, which do not occur in code, count as want of memory.
fn shape_value(value: &RunValue) -> Result<RunValue, Stop>
    ensures { (h : StoreOf) (m : MachineHeap) → Stands h m → TellsPlaced result h m (Ok (shape_vector (read m (value_of value.now)))) }
{
    let extents = value.extents();
    if !are_naturals(extents.as_slice()) {
        return Err(Stop::Memory);
    }
    Ok(RunValue::Short(Base::Int, extents))
}

// Whether no number is negative.
fn are_naturals(numbers: &[Cell]) -> bool
    ensures { IsTrue result → map pos (map unsigned_abs numbers.now) ≡ numbers.now }
{
    for n in numbers {
        if *n < 0 {
            return false;
        }
    }
    true
}

// A value, if a type contains it.
fn checked_value(value: RunValue, ty: &ArrayType, site: Site) -> Result<RunValue, Stop>
    ensures { (m : MachineHeap) → TellsChecked result value (at_site site (checked ty.now (read m (value_of value)))) }
{
    if value_has(ty, &value) {
        Ok(value)
    } else {
        Err(fault(FaultKind::F7, site))
    }
}

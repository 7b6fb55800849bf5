//! Operations by whole arrays.

ghost use Rattle.std.specs.Prelude.{◌≡◌, IfOk, Ok, map};
ghost use Rattle.counted_code.specs.Values.{Heap as MachineHeap, read};
ghost use Rattle.run_store.specs.Stands.{Stands, TellsPlaced, lender_of};
ghost use Rattle.run_plain.specs.Reads.{arrays_of, binary_in, literal_in, reshaped_in, replaced_in};
ghost use Rattle.run_values.specs.Scopes.{current};
ghost use Rattle.run_values.specs.Shown.{value_of};
ghost use Rattle.sac_base.specs.Arrays.{ArrayValue};
ghost use Rattle.sac_base.specs.Operators.{unary as unary_arrays};
ghost use Rattle.sac_base.specs.Outcomes.{Ends};
ghost use Rattle.array_ops.specs.Tells.{Tells};

use crate::together::array_either_way;
use array_ops::{binary_at, literal, placed, replace, reshape, unary_of};
use core_ir::Var;
use run_store::{Store, place_result, read_array};
use run_values::{Frames, RunValue};
use sac_base::{Array, Memory, Op, Site, Stop};
use shared_strips::Strips;
use std::alloc::Global;

/// The arrays of variables.
pub fn read_all(
    alloc: Global,
    heap: &Store<'_>,
    frames: &Frames<'_>,
    xs: &[Var],
) -> Result<Vec<Array>, Memory>
    ensures { (m : MachineHeap) → Stands heap.now m → IfOk result (λ arrays. arrays.items ≡ arrays_of m (current frames.now) xs.now) }
{
    let mut arrays = Vec::new(alloc);
    for x in xs {
        arrays.push(read_array(alloc, heap, frames.get(*x))?)?;
    }
    Ok(arrays)
}

/// An operator of one operand.
#[inline(never)]
pub fn unary_array(alloc: Global, heap: &Store<'_>, op: Op, a: RunValue) -> Result<Array, Stop>
    ensures { (m : MachineHeap) → Stands heap.now m → Tells result (Ok (unary_arrays op (read m (value_of a)))) }
{
    let array = read_array(alloc, heap, a)?;
    unary_of(alloc, op, &array)
}

/// An operator of two operands.
#[inline(never)]
pub fn binary_array<S: Strips>(
    alloc: Global,
    heap: &mut Store<'_>,
    op: Op,
    a: RunValue,
    b: RunValue,
    site: Site,
    strips: &S,
) -> Result<Array, Stop>
    ensures told { (m : MachineHeap) → Stands heap.old m → Tells result (binary_in m op a b site) }
    ensures heap { heap.new ≡ heap.old }
{
    if let Some(array) = array_either_way(alloc, heap, op, a, b, strips)? {
        return Ok(array);
    }
    let left = read_array(alloc, heap, a)?;
    let right = read_array(alloc, heap, b)?;
    binary_at(alloc, op, &left, &right, site)
}

/// An array literal.
#[inline(never)]
pub fn literal_array(
    alloc: Global,
    heap: &Store<'_>,
    frames: &Frames<'_>,
    xs: &[Var],
    site: Site,
) -> Result<Array, Stop>
    ensures { (m : MachineHeap) → Stands heap.now m → Tells result (literal_in m (current frames.now) xs.now site) }
{
    let arrays = read_all(alloc, heap, frames, xs)?;
    placed(literal(alloc, &arrays), site)
}

#[inline(never)]
fn reshape_array(
    alloc: Global,
    heap: &Store<'_>,
    shape: RunValue,
    array: RunValue,
    site: Site,
) -> Result<Array, Stop>
    ensures { (m : MachineHeap) → Stands heap.now m → Tells result (reshaped_in m shape array site) }
{
    let shape = read_array(alloc, heap, shape)?;
    let array = read_array(alloc, heap, array)?;
    placed(reshape(alloc, &shape, &array), site)
}

#[inline(never)]
fn replace_array(
    alloc: Global,
    heap: &Store<'_>,
    array: RunValue,
    index: RunValue,
    part: RunValue,
    site: Site,
) -> Result<Array, Stop>
    ensures { (m : MachineHeap) → Stands heap.now m → Tells result (replaced_in m array index part site) }
{
    let array = read_array(alloc, heap, array)?;
    let index = read_array(alloc, heap, index)?;
    let part = read_array(alloc, heap, part)?;
    placed(replace(alloc, &array, &index, &part), site)
}

/// The cells of an array under another shape.
pub fn reshape_value(
    alloc: Global,
    heap: &mut Store<'_>,
    shape: RunValue,
    array: RunValue,
    site: Site,
) -> Result<RunValue, Stop>
    ensures told { (m : MachineHeap) → Stands heap.old m → TellsPlaced result heap.new m (reshaped_in m shape array site) }
    ensures lender { lender_of heap.new ≡ lender_of heap.old }
{
    let answer = reshape_array(alloc, heap, shape, array, site);
    place_result(heap, answer)
}

/// The array with another part at an index.
pub fn replace_value(
    alloc: Global,
    heap: &mut Store<'_>,
    array: RunValue,
    index: RunValue,
    part: RunValue,
    site: Site,
) -> Result<RunValue, Stop>
    ensures told { (m : MachineHeap) → Stands heap.old m → TellsPlaced result heap.new m (replaced_in m array index part site) }
    ensures lender { lender_of heap.new ≡ lender_of heap.old }
{
    let answer = replace_array(alloc, heap, array, index, part, site);
    place_result(heap, answer)
}

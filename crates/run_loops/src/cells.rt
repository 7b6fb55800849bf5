//! The cells of results that are not finished.

ghost use Rattle.std.specs.Prelude.{◌≡◌, ◌++◌, ℕ, [], None, Ok, not, option_map, IfOk, OnOk};
ghost use Rattle.counted_code.specs.Loops.{claim as claimed, count_phase, settled, release_rest};
ghost use Rattle.counted_code.specs.Values.{Heap as MachineHeap, Ended, Value, go_on, is_small as is_small_shape, read};
ghost use Rattle.run_loops.specs.Jobs.{cell_over};
ghost use Rattle.run_loops.specs.Loops.{IsBegun};
ghost use Rattle.run_loops.specs.Running.{IsAt, IsValue, Told, formed as formed_cell};
ghost use Rattle.run_loops.specs.declared.state.State.{State as RunState};
ghost use Rattle.run_store.specs.Stands.{Stands, lender_of};
ghost use Rattle.run_store.specs.Targets.{target_of};
ghost use Rattle.run_values.specs.Shown.{value_of};
ghost use Rattle.sac_base.specs.Arrays.{size};
ghost use Rattle.array_with_loops.specs.Cells.{cell_from};

use crate::state::{Context, State};
use run_store::{Store, Target, buffer_cells, claim, fits, is_small, release, settle};
use run_values::RunValue;
use sac_base::{Array, Base, Cell, FaultKind, Form, Memory, Shape, Site, Stop, elements, fault};
use std::alloc::Global;

/// What stands where an index has no cell: the cells of an old array, or those of a default. A cell has so many elements.
#[derive(Clone, Copy)]
pub struct Background<'a> {
    pub array: &'a Array,
    pub old: bool,
    pub size: usize,
}

/// How many elements an array of this shape has.
pub fn count_elements(shape: &Shape) -> Result<usize, Memory>
    ensures { IfOk result (λ n. n ≡ size shape.now) }
{
    match elements(shape) {
        Some(n) => Ok(n as usize),
        None => Err(Memory),
    }
}

/// Counts a phase of so many positions, if it is one.
pub fn count(
    alloc: Global,
    positions: usize,
    state: &mut State<'_, '_>,
    counts: bool,
) -> Result<(), Memory>
    ensures stands { (m : MachineHeap) (n : ℕ) → n ≡ positions → IsAt state.old m → OnOk result (IsAt state.new (count_phase counts n m)) }
    ensures frames { state.new.frames ≡ state.old.frames }
    ensures lender { lender_of state.new.heap ≡ lender_of state.old.heap }
{
    if !counts {
        return Ok(());
    }
    state.phases.count(alloc, positions)
}

/// A result of this shape that has no cell yet. It is a phase of so many positions, if it is not small.
pub fn begin(
    shape: &Shape,
    positions: usize,
    context: &Context<'_>,
    state: &mut State<'_, '_>,
) -> Result<Target, Memory>
    ensures cells { IfOk result (λ t. t.cells.items ≡ []) }
    ensures begun { (m : MachineHeap) (n : ℕ) → n ≡ positions → IsAt state.old m
        → IfOk result (λ t. IsBegun (target_of t) state.new
        (claimed (is_small_shape shape.now) None (size shape.now) (count_phase (not (is_small_shape shape.now)) n m))) }
    ensures frames { OnOk result (state.new.frames ≡ state.old.frames) }
    ensures lender { lender_of state.new.heap ≡ lender_of state.old.heap }
{
    count(context.alloc, positions, state, !is_small(shape))?;
    let mut target = claim(context.alloc, &mut state.heap, shape)?;
    target.cells.clear();
    Ok(target)
}

/// The finished result.
pub fn finish(
    target: Target,
    base: Base,
    shape: &Shape,
    state: &mut State<'_, '_>,
) -> Result<RunValue, Stop>
    ensures told { (m : MachineHeap) → IsAt state.old m
        → Told IsValue result state.new (settled (target_of target) (record { base = base; shape = shape.now; cells = target.cells.items }) m) }
    ensures frames { OnOk result (state.new.frames ≡ state.old.frames) }
    ensures lender { lender_of state.new.heap ≡ lender_of state.old.heap }
{
    Ok(settle(&mut state.heap, target, base, shape)?)
}

/// A cell that must have the form.
pub fn formed(answer: Result<RunValue, Stop>, form: &Form, site: Site) -> Result<RunValue, Stop>
    ensures told { (s : RunState) (e : Ended Value) → Told IsValue answer s e → Told IsValue result s (go_on e (formed_cell form.now site)) }
    ensures same { IfOk result (λ v. answer ≡ Ok v) }
{
    let value = answer?;
    if fits(form, &value) {
        Ok(value)
    } else {
        Err(fault(FaultKind::F6, site))
    }
}

/// Appends the cells of a value.
pub fn append(heap: &Store<'_>, value: &RunValue, cells: &mut Vec<Cell>) -> Result<(), Memory>
    ensures { (m : MachineHeap) → Stands heap.now m → OnOk result (cells.new.items ≡ cells.old.items ++ (read m (value_of value.now)).cells) }
{
    match value {
        RunValue::Buffer(_, id, _) => cells.extend_from_slice(buffer_cells(heap, *id)?)?,
        RunValue::Short(_, few) => cells.extend_from_slice(few.as_slice())?,
        RunValue::Word(_, n) => cells.push(*n)?,
        RunValue::Unbound => cells.push(0)?,
    }
    Ok(())
}

/// Appends what stands at a place that has no cell, if there is a background.
fn append_background(
    background: Option<Background<'_>>,
    place: usize,
    cells: &mut Vec<Cell>,
) -> Result<(), Memory>
    ensures { OnOk result (cells.new.items ≡ cells.old.items ++ cell_over background.entry place None) }
{
    match background {
        Some(background) => append_from(&background, place, cells),
        None => Ok(()),
    }
}

fn append_from(
    background: &Background<'_>,
    place: usize,
    cells: &mut Vec<Cell>,
) -> Result<(), Memory>
    ensures { OnOk result (cells.new.items ≡ cells.old.items ++ cell_from background.now.old background.now.array.now background.now.size place None) }
{
    let stands = background.array.cells();
    if !background.old {
        cells.extend_from_slice(stands)?;
        return Ok(());
    }
    let size = background.size;
    let Some(start) = place.checked_mul(size) else {
        return Err(Memory);
    };
    if start > stands.len() || size > stands.len() - start {
        return Err(Memory);
    }
    cells.extend_from_slice(&stands[start..start + size])?;
    Ok(())
}

/// Appends the cell at a place and releases it, or what stands there, if there is a background.
pub fn put_cell(
    heap: &mut Store<'_>,
    value: Option<RunValue>,
    background: Option<Background<'_>>,
    place: usize,
    cells: &mut Vec<Cell>,
) -> Result<(), Memory>
    ensures put { (m : MachineHeap) → Stands heap.old m
        → OnOk result ((cells.new.items ≡ cells.old.items ++ cell_over background.entry place (option_map (read m) (option_map value_of value)))
        × Stands heap.new (release_rest (option_map value_of value) m)) }
    ensures lender { lender_of heap.new ≡ lender_of heap.old }
{
    match value {
        Some(value) => {
            append(heap, &value, cells)?;
            release(heap, value)
        }
        None => append_background(background, place, cells),
    }
}

//! Cells that are copied out of a store.

ghost use Rattle.std.specs.Prelude.{◌≡◌, option_map, IfOk, OnOk};
ghost use Rattle.counted_code.specs.Values.{Heap as MachineHeap};
ghost use Rattle.phase_loop_cells.specs.Cells.{IsPut, end_of, fill_at, stands_at};
ghost use Rattle.run_store.specs.Stands.{Stands, lender_of};
ghost use Rattle.run_values.specs.Shown.{value_of};
ghost use Rattle.phase_team.specs.Segments.{value_if};

use phase_team::CellEnd;
use run_store::{Store, copy_into, release};
use run_values::RunValue;
use sac_base::{Cell, Memory, Stop};

/// What stands where an index has no cell: the elements of an old array, where they lie, or those of a default. A cell has so
/// many elements.
#[derive(Clone, Copy)]
pub struct Background<'a> {
    pub cells: &'a [Cell],
    pub old: bool,
    pub size: usize,
}

/// Writes the elements of a cell and releases it, or what stands where there is none. Says whether there was anything to
/// write.
pub fn put(
    store: &mut Store<'_>,
    value: Option<RunValue>,
    background: Option<Background<'_>>,
    place: usize,
    into: &mut [Cell],
) -> Result<bool, Memory>
    ensures told { (m : MachineHeap) → Stands store.old m
        → IfOk result (λ written. IsPut (fill_at background.entry place) into.new written store.new (option_map value_of value) m) }
    ensures lender { lender_of store.new ≡ lender_of store.old }
{
    match value {
        Some(value) => {
            copy_into(store, into, &value)?;
            release(store, value)?;
            Ok(true)
        }
        None => fill(background, place, into),
    }
}

fn fill(background: Option<Background<'_>>, place: usize, into: &mut [Cell]) -> Result<bool, Memory>
    ensures { IfOk result (λ written. fill_at background.entry place ≡ value_if written into.new) }
{
    match background {
        Some(background) => {
            fill_from(&background, place, into)?;
            Ok(true)
        }
        None => Ok(false),
    }
}

fn fill_from(background: &Background<'_>, place: usize, into: &mut [Cell]) -> Result<(), Memory>
    ensures { OnOk result (into.new ≡ stands_at background.now.old background.now.cells.now background.now.size place) }
{
    let stands = background.cells;
    if !background.old {
        return copy_all(stands, into);
    }
    let size = background.size;
    let Some(start) = place.checked_mul(size) else {
        return Err(Memory);
    };
    if start > stands.len() || size > stands.len() - start {
        return Err(Memory);
    }
    copy_all(&stands[start..start + size], into)
}

fn copy_all(elements: &[Cell], into: &mut [Cell]) -> Result<(), Memory>
    ensures { OnOk result (into.new ≡ elements.now) }
{
    if elements.len() != into.len() {
        return Err(Memory);
    }
    into.copy_from_slice(elements);
    Ok(())
}

/// The answer in the words of a phase.
pub fn ended(answer: Result<bool, Stop>) -> CellEnd
    ensures { result ≡ end_of answer }
{
    match answer {
        Ok(true) => CellEnd::Value,
        Ok(false) => CellEnd::NotHeld,
        Err(stop) => CellEnd::Stopped(stop),
    }
}

//! Right sides without blocks and calls.

ghost use Rattle.counted_code.specs.Values.{Heap as MachineHeap};
ghost use Rattle.counted_code.specs.View.{code_right_term};
ghost use Rattle.run_plain.specs.Reads.{TellsPlain};
ghost use Rattle.run_store.specs.Stands.{Stands, lender_of};
ghost use Rattle.run_values.specs.Scopes.{current};
ghost use Rattle.std.specs.Prelude.{◌≡◌};

use counted_code::CodeRight;
use run_loops::{Outside, Phases};
use run_plain::plain_value;
use run_store::Store;
use run_values::{Frames, RunValue};
use sac_base::{Site, Stop};
use shared_strips::Alone;
use std::alloc::Global;

/// The value of a right side that has no block and no call, with nothing kept or released. Of any other right side nothing is said.
/// Operators of large arrays are computed by what runs loops outside of cells, if that is given.
pub fn right_value<P: Phases>(
    right: &CodeRight,
    site: Site,
    alloc: Global,
    heap: &mut Store<'_>,
    frames: &Frames<'_>,
    outside: Option<&Outside<P>>,
) -> Result<RunValue, Stop>
    ensures told { (m : MachineHeap) → Stands heap.old m → TellsPlain (code_right_term right.now) site (current frames.now) result heap.new m }
    ensures lender { lender_of heap.new ≡ lender_of heap.old }
{
    match outside {
        Some(phases) => plain_value(right, site, alloc, heap, frames, phases),
        None => plain_value(right, site, alloc, heap, frames, &Alone),
    }
}

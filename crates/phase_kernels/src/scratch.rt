//! What a worker has besides its store.

ghost use Rattle.std.specs.Prelude.{◌≡◌, ◌∷◌, [], IfSome, IsTrue};
ghost use Rattle.phase_loop_cells.specs.Ready.{IsReady};

use kernel_rows::{CellKernel, KernelRoom};
use phase_cells::CellRuns;
use phase_loop_cells::{CellScratch, LoopCells};
use sac_base::{Cell, Memory};
use std::alloc::Global;

/// What a worker has besides its store: what the evaluator needs, once it has run a cell, and room for runs of kernels, once one was run.
#[derive(Drop)]
pub struct KernelScratch<'a> {
    pub cells: Option<CellScratch<'a>>,
    pub room: Option<KernelRoom>,
}

/// Makes what the evaluator needs, if it is not there: kernels do without.
pub(crate) fn begin_once<'a>(
    cells: &LoopCells<'a>,
    scratch: &mut Option<CellScratch<'a>>,
) -> Result<(), Memory>
    requires { IfSome scratch.old (IsReady cells.now) }
    ensures { IfSome scratch.new (IsReady cells.now) }
{
    if scratch.is_none() {
        *scratch = Some(cells.begin()?);
    }
    Ok(())
}

/// Makes room for runs of these kernels, if it is not there and memory is found.
pub(crate) fn make_room(
    alloc: Global,
    kernels: &[Option<CellKernel>],
    room: &mut Option<KernelRoom>,
) {
    if room.is_none() {
        *room = KernelRoom::new(alloc, kernels).ok();
    }
}

/// Writes the one element of a cell, if there is room for one.
pub(crate) fn put_one(into: &mut [Cell], n: Cell) -> bool
    ensures { IsTrue result → into.new ≡ n ∷ [] }
{
    if into.len() != 1 {
        return false;
    }
    into[0] = n;
    true
}

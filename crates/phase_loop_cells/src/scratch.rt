//! What a worker has besides its store.

ghost use Rattle.std.specs.Prelude.{◌≡◌, IfOk};
ghost use Rattle.phase_loop_cells.specs.Walks.{IsWalk};
ghost use Rattle.run_values.specs.Scopes.{current};

use crate::walk::Walk;
use array_with_loops::Plan;
use run_loops::CellSource;
use run_values::Frames;
use sac_base::Memory;
use std::alloc::Global;

/// What a worker has besides its store: the variables of the call, whose slots it only reads, and
/// where it is, so that no cell needs an index or a search of its own.
#[derive(Drop)]
pub struct CellScratch<'a> {
    pub frames: Frames<'a>,
    pub walk: Walk,
}

impl<'a> CellScratch<'a> {
    /// The variables of the call that runs, before the first cell of a source.
    pub fn of(
        frames: &'a Frames<'_>,
        source: &CellSource<'_>,
        plan: &Plan,
        alloc: Global,
    ) -> Result<CellScratch<'a>, Memory>
        ensures { IfOk result (λ scratch. (current scratch.frames ≡ current frames.now) × IsWalk source.now plan.now scratch.walk) }
    {
        Ok(CellScratch {
            frames: frames.lent(alloc)?,
            walk: Walk::new(alloc, source, plan)?,
        })
    }
}

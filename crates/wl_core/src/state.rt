ghost use Rattle.std.specs.Prelude.{◌≡◌, ◌<◌, IfOk};
ghost use Rattle.wl_core.specs.Machine.{IsSetup, opened};
ghost use Rattle.wl_core.specs.Reading.{setup_of, state_of, IsReached, IsUnfinished};

use crate::holds::Holds;
use crate::partials::Partials;
use crate::rows::Rows;
use crate::setup::{chunk_count, chunk_end, value_width};
use crate::{Job, Setup};
use sac_base::Memory;
use std::alloc::Global;

/// A state of a phase. It has a place for each chunk, position, worker and buffer from the opening on.
#[derive(Debug, Drop)]
pub struct State {
    pub(crate) taken: usize,
    // of each chunk
    pub(crate) owner: Vec<u32>,
    pub(crate) next: Vec<usize>,
    pub(crate) stopped: Vec<bool>,
    // of each worker: the chunk that it took last, and how many holds it has
    pub(crate) latest: Vec<usize>,
    pub(crate) held: Vec<u64>,
    // of each buffer
    pub(crate) counts: Vec<u64>,
    pub(crate) holds: Holds,
    // the cells of a phase that stores them, and the workers' partial values of one that combines them
    pub(crate) stored: Rows,
    pub(crate) partials: Partials,
}

/// The opening state: nothing is taken, and the counts are those of the setup.
pub fn open_state(alloc: Global, setup: &Setup) -> Result<State, Memory>
    requires { IsSetup (setup_of setup.now) }
    ensures { IfOk result (λ state. IsReached setup.now state × (state_of (setup_of setup.now) state ≡ opened (setup_of setup.now))) }
{
    let chunks = chunk_count(setup);
    let workers = setup.workers as usize;
    let width = value_width(setup);
    let (positions, partials) = match setup.job {
        Job::Write => (setup.cells.len(), 0),
        Job::Fold(_, _) => (0, workers),
    };
    Ok(State {
        taken: 0,
        owner: vec![in alloc; 0; chunks]?,
        next: vec![in alloc; 0; chunks]?,
        stopped: vec![in alloc; false; chunks]?,
        latest: vec![in alloc; 0; workers]?,
        held: vec![in alloc; 0; workers]?,
        counts: setup.counts.clone()?,
        holds: Holds::new(alloc, workers, setup.counts.len())?,
        stored: Rows::new(alloc, positions, width)?,
        partials: Partials::new(alloc, partials, width)?,
    })
}

/// The worker's chunk that has neither ended nor stopped.
pub fn unfinished(setup: &Setup, state: &State, worker: u32) -> Option<usize>
    requires reached { IsReached setup.now state.now }
    requires worker { worker < setup.now.workers }
    ensures { IsUnfinished setup.now state.now worker result }
{
    let chunk = state.latest[worker as usize];
    if chunk < state.taken
        && state.owner[chunk] == worker
        && !state.stopped[chunk]
        && state.next[chunk] < chunk_end(setup, chunk)
    {
        Some(chunk)
    } else {
        None
    }
}

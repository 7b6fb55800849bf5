ghost use Rattle.std.specs.Prelude.{◌≡◌, ◌<◌, ◌↔◌, IsTrue, IfOk, IsSomeAnd, Some, Err, length, slice_get};
ghost use Rattle.sac_base.specs.declared.faults.Fault.{Fault};
ghost use Rattle.wl_core.specs.Machine.{ChunksDone, Finished, HoldsNothing, sequential};
ghost use Rattle.wl_core.specs.Reading.{setup_of, state_of, verdict_of, IsReached, IsFirstStop};

use crate::setup::{cell, chunk_end};
use crate::{CellResult, Job, Setup, State};
use sac_base::{Cell, Fault, Memory};
use std::alloc::Global;

/// What a phase comes to.
#[derive(Debug, Drop)]
pub enum Verdict {
    /// The cells joined.
    Cells(Vec<Cell>),
    /// The held cells combined, or None where none is held.
    Partial(Option<Vec<Cell>>),
    /// The fault of the least faulting position.
    Faulted(Fault),
}

/// Whether no worker holds anything, and every chunk has ended, has stopped, or lies after a stopped one.
pub fn finished(setup: &Setup, state: &State) -> bool
    requires { IsReached setup.now state.now }
    ensures { IsTrue result ↔ Finished (setup_of setup.now) (state_of (setup_of setup.now) state.now) }
{
    holds_nothing(setup, state) && chunks_done(setup, state)
}

fn holds_nothing(setup: &Setup, state: &State) -> bool
    requires { IsReached setup.now state.now }
    ensures { IsTrue result ↔ HoldsNothing (setup_of setup.now) (state_of (setup_of setup.now) state.now) }
{
    for total in &state.held {
        if *total != 0 {
            return false;
        }
    }
    true
}

fn chunks_done(setup: &Setup, state: &State) -> bool
    requires { IsReached setup.now state.now }
    ensures { IsTrue result ↔ ChunksDone (setup_of setup.now) (state_of (setup_of setup.now) state.now) }
{
    for chunk in 0..state.owner.len() {
        if chunk >= state.taken {
            return false;
        }
        if state.stopped[chunk] {
            return true;
        }
        if state.next[chunk] < chunk_end(setup, chunk) {
            return false;
        }
    }
    true
}

/// What a finished phase comes to: the fault of the least faulting position, or else the cells joined, or the held cells combined.
pub fn outcome(alloc: Global, setup: &Setup, state: &State) -> Result<Verdict, Memory>
    requires reached { IsReached setup.now state.now }
    requires finished { Finished (setup_of setup.now) (state_of (setup_of setup.now) state.now) }
    ensures { IfOk result (λ verdict. verdict_of verdict ≡ sequential (setup_of setup.now)) }
{
    if let Some(fault) = first_stop(setup, state) {
        return Ok(Verdict::Faulted(fault));
    }
    match setup.job {
        Job::Write => Ok(Verdict::Cells(state.stored.joined()?)),
        Job::Fold(_, op) => Ok(Verdict::Partial(state.partials.combined(alloc, op)?)),
    }
}

// The fault at which the least stopped chunk stopped.
fn first_stop(setup: &Setup, state: &State) -> Option<Fault>
    requires { IsReached setup.now state.now }
    ensures { IsFirstStop setup.now state.now result }
{
    for chunk in 0..state.taken {
        if state.stopped[chunk] {
            return fault_at(setup, state.next[chunk]);
        }
    }
    None
}

// The fault of a position that faults.
fn fault_at(setup: &Setup, position: usize) -> Option<Fault>
    requires below { position < length setup.now.cells.items }
    requires faults { (fault : Fault) × (slice_get (setup_of setup.now).cells position ≡ Some (Err fault)) }
    ensures { IsSomeAnd result (λ fault. slice_get (setup_of setup.now).cells position ≡ Some (Err fault)) }
{
    match cell(setup, position) {
        CellResult::Faults(fault) => Some(*fault),
        CellResult::Value(_) | CellResult::NotHeld => None,
    }
}

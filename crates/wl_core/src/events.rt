ghost use Rattle.std.specs.Prelude.{◌≡◌, ◌<◌};
ghost use Rattle.wl_core.specs.Reading.{Answers, EnterFits, Enters, IsReached, Moves};

use crate::limits::MOST_HOLDS;
use crate::setup::{cell, chunk_start};
use crate::state::unfinished;
use crate::{CellResult, Job, Setup, State};
use sac_base::Cell;

/// What a worker does next.
#[derive(Clone, Copy, Debug, PartialEq, Eq)]
pub enum Event {
    /// The worker takes the next chunk.
    Draw(u32),
    /// The worker takes one more hold of a buffer.
    Keep(u32, u64),
    /// The worker gives up one of its holds of a buffer.
    Release(u32, u64),
    /// The worker takes the next cell of its chunk, which does not fault.
    Write(u32),
    /// The worker stops its chunk at a cell that faults.
    Stop(u32),
}

/// Why an event is refused. Where several reasons hold, the one that stands first among NoSuch, HasChunk, NoChunk, NoOwn, AtFault, NotFault,
/// NotHeld and Full is given.
#[derive(Clone, Copy, Debug, PartialEq, Eq)]
pub enum Refused {
    /// Every chunk was taken.
    NoChunk,
    /// The worker's chunk has neither ended nor stopped.
    HasChunk,
    /// The worker has no chunk that has neither ended nor stopped.
    NoOwn,
    /// The next cell faults.
    AtFault,
    /// The next cell does not fault.
    NotFault,
    /// The worker does not hold the buffer.
    NotHeld,
    /// There is no such worker or buffer.
    NoSuch,
    /// The worker has as many holds as it may have.
    Full,
}

/// Does an event, or gives the first reason to refuse it and changes nothing. The state was reached from the opening of this setup by steps.
pub fn step(setup: &Setup, state: &mut State, event: Event) -> Result<(), Refused>
    requires { IsReached setup.now state.old }
    ensures reached { IsReached setup.now state.new }
    ensures answer { Answers setup.now state.old event state.new result }
{
    match event {
        Event::Draw(worker) => draw(setup, state, worker),
        Event::Keep(worker, buffer) => keep(setup, state, worker, buffer),
        Event::Release(worker, buffer) => release(setup, state, worker, buffer),
        Event::Write(worker) => write(setup, state, worker),
        Event::Stop(worker) => stop(setup, state, worker),
    }
}

fn draw(setup: &Setup, state: &mut State, worker: u32) -> Result<(), Refused>
    requires { IsReached setup.now state.old }
    ensures { Moves setup.now state.old (Event.Draw worker) state.new result }
{
    if worker >= setup.workers {
        return Err(Refused::NoSuch);
    }
    let None = unfinished(setup, state, worker) else {
        return Err(Refused::HasChunk);
    };
    let chunk = state.taken;
    if chunk == state.owner.len() {
        return Err(Refused::NoChunk);
    }
    state.owner[chunk] = worker;
    state.next[chunk] = chunk_start(setup, chunk);
    state.stopped[chunk] = false;
    state.latest[worker as usize] = chunk;
    state.taken = chunk + 1;
    Ok(())
}

fn keep(setup: &Setup, state: &mut State, worker: u32, buffer: u64) -> Result<(), Refused>
    requires { IsReached setup.now state.old }
    ensures { Moves setup.now state.old (Event.Keep worker buffer) state.new result }
{
    let w = worker as usize;
    let b = buffer as usize;
    if worker >= setup.workers || b >= state.counts.len() {
        return Err(Refused::NoSuch);
    }
    if state.held[w] >= MOST_HOLDS {
        return Err(Refused::Full);
    }
    let times = state.holds.times(w, b);
    state.holds.set(w, b, times + 1);
    state.held[w] += 1;
    state.counts[b] += 1;
    Ok(())
}

fn release(setup: &Setup, state: &mut State, worker: u32, buffer: u64) -> Result<(), Refused>
    requires { IsReached setup.now state.old }
    ensures { Moves setup.now state.old (Event.Release worker buffer) state.new result }
{
    let w = worker as usize;
    let b = buffer as usize;
    if worker >= setup.workers || b >= state.counts.len() {
        return Err(Refused::NoSuch);
    }
    let times = state.holds.times(w, b);
    if times == 0 {
        return Err(Refused::NotHeld);
    }
    state.holds.set(w, b, times - 1);
    state.held[w] -= 1;
    state.counts[b] -= 1;
    Ok(())
}

fn write(setup: &Setup, state: &mut State, worker: u32) -> Result<(), Refused>
    requires { IsReached setup.now state.old }
    ensures { Moves setup.now state.old (Event.Write worker) state.new result }
{
    if worker >= setup.workers {
        return Err(Refused::NoSuch);
    }
    let Some(chunk) = unfinished(setup, state, worker) else {
        return Err(Refused::NoOwn);
    };
    let position = state.next[chunk];
    match cell(setup, position) {
        CellResult::Faults(_) => Err(Refused::AtFault),
        CellResult::Value(value) => {
            enter(setup, state, worker, position, value);
            state.next[chunk] = position + 1;
            Ok(())
        }
        CellResult::NotHeld => {
            state.next[chunk] = position + 1;
            Ok(())
        }
    }
}

// Stores the value of a position, or combines it with the worker's partial value.
fn enter(setup: &Setup, state: &mut State, worker: u32, position: usize, value: &[Cell])
    requires { EnterFits setup.now.job state.old worker position value.now }
    ensures { Enters setup.now.job state.old worker position value.now state.new }
{
    match setup.job {
        Job::Write => state.stored.put(position, value),
        Job::Fold(_, op) => state.partials.add(worker as usize, op, value),
    }
}

fn stop(setup: &Setup, state: &mut State, worker: u32) -> Result<(), Refused>
    requires { IsReached setup.now state.old }
    ensures { Moves setup.now state.old (Event.Stop worker) state.new result }
{
    if worker >= setup.workers {
        return Err(Refused::NoSuch);
    }
    let Some(chunk) = unfinished(setup, state, worker) else {
        return Err(Refused::NoOwn);
    };
    match cell(setup, state.next[chunk]) {
        CellResult::Faults(_) => {
            state.stopped[chunk] = true;
            Ok(())
        }
        _ => Err(Refused::NotFault),
    }
}

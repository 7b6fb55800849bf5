//! Phases of four cells of the values 10, 11, 12 and 13, in chunks of two for two workers.

ghost use Rattle.wl_core.specs.Reading.{IsReached};

use sac_base::{Base, Cell, Fault, FaultKind, Op, Site};
use std::alloc::Global;
use wl_core::{
    CellResult, Event, Job, Refused, Setup, State, Verdict, finished, is_setup, open_state,
    outcome, step,
};

// The fault of a position.
fn fault_of(position: u32) -> Fault {
    Fault {
        kind: FaultKind::F2,
        site: Site {
            line: 1,
            col: position,
        },
    }
}

fn cell(alloc: Global, position: u32, value: Cell, faulting: &[u32]) -> CellResult {
    if faulting.contains(&position) {
        return CellResult::Faults(fault_of(position));
    }
    let mut elements = Vec::new(alloc);
    let _ = elements.push(value);
    CellResult::Value(elements)
}

// The phase of which these positions fault. Where there is no memory, it has fewer cells.
fn four(alloc: Global, job: Job, faulting: &[u32]) -> Setup {
    let mut cells = Vec::new(alloc);
    for (position, value) in [(0, 10), (1, 11), (2, 12), (3, 13)] {
        let _ = cells.push(cell(alloc, position, value, faulting));
    }
    let mut counts = Vec::new(alloc);
    let _ = counts.push(1);
    Setup {
        cells,
        cuts_size: 2,
        workers: 2,
        job,
        counts,
    }
}

// Whether all events are done, and the phase is not finished before the last of them.
fn are_done(setup: &Setup, state: &mut State, events: &[Event]) -> bool
    requires { IsReached setup.now state.old }
    ensures { IsReached setup.now state.new }
{
    let mut all = true;
    'accepted: for event in events {
        all = all && !finished(setup, state) && step(setup, state, *event).is_ok();
    }
    all
}

// Whether each event is refused for its reason.
fn are_refused(setup: &Setup, state: &mut State, refused: &[(Event, Refused)]) -> bool
    requires { IsReached setup.now state.old }
{
    let mut all = true;
    'refusals: for (event, reason) in refused {
        all = all && step(setup, state, *event) == Err(*reason);
    }
    all
}

fn outcome_of(alloc: Global, setup: &Setup, state: &State) -> Option<Verdict>
    requires { IsReached setup.now state.now }
{
    if !finished(setup, state) {
        return None;
    }
    outcome(alloc, setup, state).ok()
}

// What a phase comes to by these events, which finish it.
fn outcome_by(alloc: Global, setup: &Setup, events: &[Event]) -> Option<Verdict> {
    if !is_setup(setup) {
        return None;
    }
    let mut state = open_state(alloc, setup).ok()?;
    if !are_done(setup, &mut state, events) {
        return None;
    }
    outcome_of(alloc, setup, &state)
}

fn verdict(alloc: Global, job: Job, faulting: &[u32], events: &[Event]) -> Option<Verdict> {
    outcome_by(alloc, &four(alloc, job, faulting), events)
}

// Whether the events are done, and these ones then refused.
fn refuses(alloc: Global, setup: &Setup, events: &[Event], refused: &[(Event, Refused)]) -> bool {
    if !is_setup(setup) {
        return false;
    }
    let Ok(mut state) = open_state(alloc, setup) else {
        return false;
    };
    are_done(setup, &mut state, events) && are_refused(setup, &mut state, refused)
}

fn has_cells(verdict: Option<Verdict>, cells: &[Cell]) -> bool {
    match verdict {
        Some(Verdict::Cells(found)) => found.as_slice() == cells,
        _ => false,
    }
}

fn is_combined(verdict: Option<Verdict>, cells: &[Cell]) -> bool {
    match verdict {
        Some(Verdict::Partial(Some(found))) => found.as_slice() == cells,
        _ => false,
    }
}

fn has_fault_of(verdict: Option<Verdict>, position: u32) -> bool {
    match verdict {
        Some(Verdict::Faulted(fault)) => fault == fault_of(position),
        _ => false,
    }
}

const INTERLEAVED: [Event; 6] = [
    Event::Draw(0),
    Event::Draw(1),
    Event::Write(1),
    Event::Write(0),
    Event::Write(1),
    Event::Write(0),
];

#[test]
fn cells_come_in_order_or_are_combined(rt: HostRuntime) {
    let alloc = rt.alloc();
    let written = verdict(alloc, Job::Write, &[], &INTERLEAVED);
    assert!(rt; has_cells(written, &[10, 11, 12, 13]));
    let combined = verdict(alloc, Job::Fold(Base::Int, Op::Max), &[], &INTERLEAVED);
    assert!(rt; is_combined(combined, &[13]));
}

#[test]
fn the_least_fault_is_given(rt: HostRuntime) {
    let alloc = rt.alloc();
    let inner = [
        Event::Draw(0),
        Event::Draw(1),
        Event::Stop(1),
        Event::Write(0),
        Event::Stop(0),
    ];
    assert!(rt; has_fault_of(verdict(alloc, Job::Write, &[1, 2], &inner), 1));
    let outer = [
        Event::Draw(0),
        Event::Draw(1),
        Event::Write(1),
        Event::Stop(1),
        Event::Stop(0),
    ];
    assert!(rt; has_fault_of(verdict(alloc, Job::Write, &[0, 3], &outer), 0));
}

#[test]
fn an_event_is_refused_for_the_first_reason(rt: HostRuntime) {
    let alloc = rt.alloc();
    let ended = [
        (Event::Draw(0), Refused::NoChunk),
        (Event::Write(0), Refused::NoOwn),
    ];
    let cells = four(alloc, Job::Write, &[]);
    assert!(rt; refuses(alloc, &cells, &INTERLEAVED, &ended));
    let faulting = [
        (Event::Write(0), Refused::AtFault),
        (Event::Draw(0), Refused::HasChunk),
        (Event::Release(0, 0), Refused::NotHeld),
        (Event::Keep(0, 1), Refused::NoSuch),
    ];
    let cells = four(alloc, Job::Write, &[0, 3]);
    assert!(rt; refuses(alloc, &cells, &[Event::Draw(0)], &faulting));
}

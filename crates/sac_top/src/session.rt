//! What travels through a run.
ghost use Rattle.std.specs.Prelude.{◌≡◌};

use buffer_heap::Heap;
use phase_workers::Gate;
use run_eval::Trace;
use sac_words::Options;
use std::alloc::Global;
use std::thread::Threads;
use type_check::Checked;

/// An accepted program, and how it is to be run.
#[derive(Clone, Copy)]
pub struct Job<'a> {
    pub checked: &'a Checked,
    pub options: &'a Options<'a>,
}

/// Where a program is run, who is told of it, and what its run leaves behind.
#[derive(Drop)]
pub struct Session<'a, G: Gate, R: Threads + Sync> {
    pub rt: &'a R,
    pub alloc: Global,
    pub gate: &'a G,
    pub heap: &'a mut Heap,
    pub trace: &'a mut Trace,
}

impl<'a, G: Gate, R: Threads + Sync> Session<'a, G, R> {
    /// A session over a heap and a trace.
    pub fn new(
        rt: &'a R,
        alloc: Global,
        gate: &'a G,
        heap: &'a mut Heap,
        trace: &'a mut Trace,
    ) -> Session<'a, G, R>
        ensures heap { result.heap.ghost_name ≡ heap.entry.ghost_name }
        ensures trace { result.trace.ghost_name ≡ trace.entry.ghost_name }
        ensures heap_now { result.heap.now ≡ heap.old }
        ensures trace_now { result.trace.now ≡ trace.old }
    {
        Session {
            rt,
            alloc,
            gate,
            heap,
            trace,
        }
    }
}

//! Runs of a case, and what they print.

use crate::case::Case;
use crate::holding::Holding;
use crate::kernels::count_kernels;
use crate::meeting::Meeting;
use counted_code::Code;
use sac_io::{MemFiles, MemSink, write_all};
use sac_real::Out;
use sac_top::{Gate, Heap, NoGate, Trace, sac};
use std::alloc::Global;
use std::thread::Threads;

/// More bytes than any text of these cases has.
const ROOM: u64 = 1_000_000;

// What a run leaves: its exit status, how many buffers its heap holds, how many of them its trace says were taken, given back and reused, and how many
// phases and draws its tally counts.
#[derive(Clone, Copy)]
struct Ran {
    status: u8,
    live: u64,
    taken: u64,
    given: u64,
    reused: u64,
    phases: u64,
    draws: u64,
}

// The words of a run with so many workers, behind the program's name.
fn all_words<'a>(alloc: Global, words: &'a str, workers: &'a str) -> Option<Vec<&'a str>> {
    let mut all: Vec<&str> = Vec::new(alloc);
    all.push("sac").ok()?;
    for word in words.split_whitespace() {
        all.push(word).ok()?;
    }
    all.push("--workers").ok()?;
    all.push(workers).ok()?;
    Some(all)
}

// Runs the words over files and a sink.
fn run_behind<G: Gate, R: Threads + Sync>(
    rt: &R,
    alloc: Global,
    words: &str,
    workers: &str,
    files: &mut MemFiles,
    sink: &mut MemSink,
    gate: &G,
) -> Option<Ran> {
    let all = all_words(alloc, words, workers)?;
    let mut heap = Heap::new(alloc);
    let mut trace = Trace::new();
    let status = sac(rt, alloc, &all, files, sink, &mut heap, gate, &mut trace);
    Some(Ran {
        status: status.code(),
        live: heap.live(),
        taken: trace.taken,
        given: trace.given,
        reused: trace.reused,
        phases: trace.tally.phases(),
        draws: trace.tally.draws(),
    })
}

// The code of a case, which a run leaves.
fn code_of<R: Threads + Sync>(rt: &R, alloc: Global, case: &Case) -> Option<Code> {
    let all = all_words(alloc, case.words.as_str(), "1")?;
    let mut files = case.files(alloc, Vec::new(alloc))?;
    let mut sink = MemSink::new(alloc, ROOM, Vec::new(alloc));
    let mut heap = Heap::new(alloc);
    let mut trace = Trace::new();
    sac(
        rt, alloc, &all, &mut files, &mut sink, &mut heap, &NoGate, &mut trace,
    );
    trace.code
}

// The same without a gate.
fn run<R: Threads + Sync>(
    rt: &R,
    alloc: Global,
    words: &str,
    workers: &str,
    files: &mut MemFiles,
    sink: &mut MemSink,
) -> Option<Ran> {
    run_behind(rt, alloc, words, workers, files, sink, &NoGate)
}

// Prints what a sink took, and ends its last line.
fn show_text<R: Print>(rt: &R, sink: &MemSink) -> Option<()> {
    let mut out = Out::new(rt);
    let text = sink.bytes();
    write_all(&mut out, text).ok()?;
    if text.last() != Some(&b'\n') {
        println!(rt;).ok()?;
    }
    Some(())
}

// Prints what a sink took, and on a line of its own the status and the number of buffers that are left.
fn show<R: Print>(rt: &R, sink: &MemSink, ran: &Ran) -> Option<()> {
    show_text(rt, sink)?;
    let (status, live) = (ran.status, ran.live);
    println!(rt; "status {status}, buffers {live}").ok()
}

// The same with the number of phases.
fn show_phases<R: Print>(rt: &R, sink: &MemSink, ran: &Ran) -> Option<()> {
    show_text(rt, sink)?;
    let (status, live, phases) = (ran.status, ran.live, ran.phases);
    println!(rt; "status {status}, buffers {live}, phases {phases}").ok()
}

// The same with the numbers of buffers that were taken, given back and reused.
fn show_counters<R: Print>(rt: &R, sink: &MemSink, ran: &Ran) -> Option<()> {
    show_phases(rt, sink, ran)?;
    let (taken, given, reused) = (ran.taken, ran.given, ran.reused);
    println!(rt; "taken {taken}, given {given}, reused {reused}").ok()
}

/// What is printed of a run beside the text that its sink took.
#[derive(Clone, Copy)]
pub enum Shown {
    /// The exit status, and how many buffers are left.
    Status,
    /// These, and how many phases there were.
    Phases,
    /// All these, and how many buffers were taken, given back and reused.
    Counters,
}

/// Runs the case with each of these numbers of workers, and prints what is to be shown of each run.
pub fn with_workers<R: Threads + Sync + Print>(
    rt: &R,
    alloc: Global,
    case: &Case,
    workers: &str,
    shown: Shown,
) -> Option<()> {
    for count in workers.split_whitespace() {
        let mut files = case.files(alloc, Vec::new(alloc))?;
        let mut sink = MemSink::new(alloc, ROOM, Vec::new(alloc));
        let ran = run(rt, alloc, case.words.as_str(), count, &mut files, &mut sink)?;
        match shown {
            Shown::Status => show(rt, &sink, &ran)?,
            Shown::Phases => show_phases(rt, &sink, &ran)?,
            Shown::Counters => show_counters(rt, &sink, &ran)?,
        }
    }
    Some(())
}

/// Prints how many bodies of the case's loops there are, how many have a kernel, how many of these have strips, and of how many the strips compute the
/// first row, where calls may go so many levels deep.
pub fn of_kernels<R: Threads + Sync + Print>(
    rt: &R,
    alloc: Global,
    case: &Case,
    levels: u64,
) -> Option<()> {
    let code = code_of(rt, alloc, case)?;
    let counts = count_kernels(alloc, &code, case.input(), levels)?;
    let (bodies, kernels) = (counts.bodies, counts.kernels);
    let (strips, rows) = (counts.strips, counts.rows);
    println!(rt; "bodies {bodies}, kernels {kernels}, strips {strips}, rows {rows}").ok()
}

/// Runs the case with two workers, of which each chunk waits for the other one, and prints how many met.
pub fn of_meeting<R: Threads + Sync + Print>(rt: &R, alloc: Global, case: &Case) -> Option<()> {
    let mut files = case.files(alloc, Vec::new(alloc))?;
    let mut sink = MemSink::new(alloc, ROOM, Vec::new(alloc));
    let gate = Meeting::new();
    let words = case.words.as_str();
    let ran = run_behind(rt, alloc, words, "2", &mut files, &mut sink, &gate)?;
    show_phases(rt, &sink, &ran)?;
    let met = gate.met();
    println!(rt; "met {met}").ok()
}

/// Runs the case where one chunk waits until another one has begun, by the numbers of the two chunks and of the workers, and
/// prints how often it saw that one begin, and the phases and draws of the tally.
pub fn of_holding<R: Threads + Sync + Print>(
    rt: &R,
    alloc: Global,
    case: &Case,
    numbers: &str,
) -> Option<()> {
    let mut rest = numbers.split_whitespace();
    let held = rest.next()?.parse::<u64>().ok()?;
    let awaited = rest.next()?.parse::<u64>().ok()?;
    let workers = rest.next()?;
    let mut files = case.files(alloc, Vec::new(alloc))?;
    let mut sink = MemSink::new(alloc, ROOM, Vec::new(alloc));
    let gate = Holding::new(held, awaited);
    let words = case.words.as_str();
    let ran = run_behind(rt, alloc, words, workers, &mut files, &mut sink, &gate)?;
    show(rt, &sink, &ran)?;
    let seen = gate.seen();
    println!(rt; "seen {seen}").ok()?;
    let (phases, draws) = (ran.phases, ran.draws);
    println!(rt; "phases {phases}, draws {draws}").ok()
}

/// Runs the case over files of which this fetch fails, and a sink of 8 bytes a call, of which this call fails.
pub fn with_failing_devices<R: Threads + Sync + Print>(
    rt: &R,
    alloc: Global,
    case: &Case,
    fetch: u64,
    call: u64,
) -> Option<()> {
    let mut files = case.files(alloc, only(alloc, fetch)?)?;
    let mut sink = MemSink::new(alloc, 8, only(alloc, call)?);
    let ran = run(rt, alloc, case.words.as_str(), "1", &mut files, &mut sink)?;
    show(rt, &sink, &ran)
}

// A list of one number.
fn only(alloc: Global, number: u64) -> Option<Vec<u64>> {
    let mut numbers = Vec::new(alloc);
    numbers.push(number).ok()?;
    Some(numbers)
}

/// Runs the case over sinks of one byte a call, of which call 1 fails, then call 2, up to `count`.
pub fn with_failing_sinks<R: Threads + Sync + Print>(
    rt: &R,
    alloc: Global,
    case: &Case,
    count: u64,
) -> Option<()> {
    for call in 0..count {
        let mut files = case.files(alloc, Vec::new(alloc))?;
        let mut sink = MemSink::new(alloc, 1, only(alloc, call + 1)?);
        let ran = run(rt, alloc, case.words.as_str(), "1", &mut files, &mut sink)?;
        show(rt, &sink, &ran)?;
    }
    Some(())
}

/// Runs the case over files of which fetch 1 fails, then fetch 2, up to `count`.
pub fn with_failing_files<R: Threads + Sync + Print>(
    rt: &R,
    alloc: Global,
    case: &Case,
    count: u64,
) -> Option<()> {
    for call in 0..count {
        let mut files = case.files(alloc, only(alloc, call + 1)?)?;
        let mut sink = MemSink::new(alloc, ROOM, Vec::new(alloc));
        let ran = run(rt, alloc, case.words.as_str(), "1", &mut files, &mut sink)?;
        show(rt, &sink, &ran)?;
    }
    Some(())
}

/// Runs the case with each front of fewer than `count` bytes of the text that was filled last, and prints the statuses, a digit each.
pub fn of_fronts<R: Threads + Sync + Print>(
    rt: &R,
    alloc: Global,
    case: &Case,
    count: u64,
) -> Option<()> {
    for bytes in 0..count {
        let mut files = case.cut_files(alloc, bytes as usize)?;
        let mut sink = MemSink::new(alloc, ROOM, Vec::new(alloc));
        let ran = run(rt, alloc, case.words.as_str(), "1", &mut files, &mut sink)?;
        let status = ran.status;
        print!(rt; "{status}").ok()?;
    }
    println!(rt;).ok()
}

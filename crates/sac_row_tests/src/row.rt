//! A row of the table, and its runs.

use crate::plain::plain_text;
use crate::wanting::WantingFiles;
use sac_base::Name;
use sac_io::{Files, MemFiles, MemSink, Sink, write_all};
use sac_real::Out;
use sac_top::{Heap, NoGate, Trace, sac};
use std::alloc::Global;
use std::thread::Threads;

/// What a row is run on.
#[derive(Clone, Copy, Debug, PartialEq, Eq)]
enum Machine {
    /// Files and a sink without a fault.
    Sound,
    /// A sink that takes at most 8 bytes a call and fails at its second call.
    FailingSink,
    /// Files for which no memory is found.
    WantingFiles,
}

/// A row, as far as it was read.
#[derive(Drop)]
pub struct Row {
    words: String,
    source: String,
    input: String,
    /// Whether the source is read to its end.
    behind_source: bool,
    machine: Machine,
    /// Whether its meaning is run plainly too.
    plainly: bool,
}

// The status of a run with an empty heap, no gate and a new trace.
fn run_over<R: Threads + Sync, F: Files, S: Sink>(
    rt: &R,
    alloc: Global,
    words: &[&str],
    files: &mut F,
    sink: &mut S,
) -> u8 {
    let mut heap = Heap::new(alloc);
    let mut trace = Trace::new();
    let status = sac(
        rt, alloc, words, files, sink, &mut heap, &NoGate, &mut trace,
    );
    status.code()
}

// The status of a run whose sink fails, of which what it has taken is printed with a line feed.
fn run_failing<R: Threads + Sync + Print>(
    rt: &R,
    alloc: Global,
    words: &[&str],
    files: &mut MemFiles,
) -> Option<u8> {
    let mut failing = Vec::new(alloc);
    failing.push(2).ok()?;
    let mut sink = MemSink::new(alloc, 8, failing);
    let status = run_over(rt, alloc, words, files, &mut sink);
    let mut out = Out::new(rt);
    write_all(&mut out, sink.bytes()).ok()?;
    write_all(&mut out, b"\n").ok()?;
    Some(status)
}

impl Row {
    pub fn new(alloc: Global) -> Row {
        Row {
            words: String::new(alloc),
            source: String::new(alloc),
            input: String::new(alloc),
            behind_source: false,
            machine: Machine::Sound,
            plainly: false,
        }
    }

    /// Takes a line of the row, but not its last one. A line that begins with `#` says something of the row, and any other is a
    /// line of the source or of the input.
    pub fn take_line(&mut self, line: &str) -> Option<()> {
        if line == "#input" {
            self.behind_source = true;
        } else if line == "#plain" {
            self.plainly = true;
        } else if line == "#failing sink" {
            self.machine = Machine::FailingSink;
        } else if line == "#wanting files" {
            self.machine = Machine::WantingFiles;
        } else if line.starts_with("#sac") {
            self.words.push_str(line).ok()?;
        } else if let Some(number) = line.strip_prefix("#spaces ") {
            self.push_spaces(number.parse::<u32>().ok()?)?;
        } else {
            self.text().push_str(line).ok()?;
            self.text().push_str("\n").ok()?;
        }
        Some(())
    }

    // The source, or the input behind it.
    fn text(&mut self) -> &mut String {
        if self.behind_source {
            &mut self.input
        } else {
            &mut self.source
        }
    }

    fn push_spaces(&mut self, number: u32) -> Option<()> {
        let text = self.text();
        for _ in 0..number {
            text.push(' ').ok()?;
        }
        Some(())
    }

    // The source and the input under their names.
    fn files(&self, alloc: Global) -> Option<MemFiles> {
        let mut files = Vec::new(alloc);
        for (name, text) in [("p.sac", &self.source), ("p.in", &self.input)] {
            let name = Name::new(String::from_str(alloc, name).ok()?)?;
            let bytes = text.as_bytes().to_vec(alloc).ok()?;
            files.push((name, bytes)).ok()?;
        }
        Some(MemFiles::new(files, Vec::new(alloc)))
    }

    // Runs the row with so many workers, and gives its exit status.
    fn run<R: Threads + Sync + Print>(&self, rt: &R, alloc: Global, workers: &str) -> Option<u8> {
        let mut words: Vec<&str> = Vec::new(alloc);
        for word in self.words.as_str().split_whitespace() {
            words.push(word).ok()?;
        }
        words.push("--workers").ok()?;
        words.push(workers).ok()?;
        let mut files = self.files(alloc)?;
        let mut out = Out::new(rt);
        match self.machine {
            Machine::Sound => Some(run_over(rt, alloc, &words, &mut files, &mut out)),
            Machine::FailingSink => run_failing(rt, alloc, &words, &mut files),
            Machine::WantingFiles => {
                let mut wanting = WantingFiles::new();
                Some(run_over(rt, alloc, &words, &mut wanting, &mut out))
            }
        }
    }

    /// Runs the row with one worker and with four, and, where that is asked for, plainly.
    pub fn run_all<R: Threads + Sync + Print>(&self, rt: &R, alloc: Global) -> Option<()> {
        for workers in ["1", "4"] {
            let code = self.run(rt, alloc, workers)?;
            println!(rt; "#status {code}").ok()?;
        }
        if self.plainly {
            let text = plain_text(alloc, self.source.as_bytes(), self.input.as_bytes())?;
            write_all(&mut Out::new(rt), &text).ok()?;
            println!(rt; "#plain").ok()?;
        }
        Some(())
    }
}

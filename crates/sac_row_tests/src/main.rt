//! Runs the rows and the cases of standard input, and prints what each run prints, and its exit status.
//!
//! A row is run with one worker and with four. Behind a line `#cases` each line is a directive of a case, a word and what it takes:
//! devices that fail at each of their calls, texts that are cut short, limits at their edges, and phases. Behind a line `#rows`
//! there are rows again. `README.md` lists the lines of both.
#![tactic(auto)]

mod case;
mod directive;
mod holding;
mod kernels;
mod meeting;
mod plain;
mod row;
mod runs;
mod wanting;

use case::Case;
use directive::Directive;
use row::Row;
use runs::{Shown, with_workers};
use std::alloc::Global;
use std::process::ExitCode;
use std::thread::Threads;

// Takes a line of a row. Behind a row's last line it is run.
fn take_line<R: Threads + Sync + Print>(
    rt: &R,
    alloc: Global,
    row: &mut Row,
    line: &str,
) -> Option<()> {
    if line == "#end" {
        row.run_all(rt, alloc)?;
        *row = Row::new(alloc);
        Some(())
    } else {
        row.take_line(line)
    }
}

// Does what a directive that runs a case asks for.
fn run_case<R: Threads + Sync + Print>(
    rt: &R,
    alloc: Global,
    case: &Case,
    directive: &Directive<'_>,
) -> Option<()> {
    match directive {
        Directive::Run(workers) => with_workers(rt, alloc, case, workers, Shown::Status),
        Directive::Phases(workers) => with_workers(rt, alloc, case, workers, Shown::Phases),
        Directive::Counters(workers) => with_workers(rt, alloc, case, workers, Shown::Counters),
        Directive::Kernels(levels) => runs::of_kernels(rt, alloc, case, *levels),
        Directive::Meet => runs::of_meeting(rt, alloc, case),
        Directive::Hold(numbers) => runs::of_holding(rt, alloc, case, numbers),
        Directive::Devices(fetch, call) => {
            runs::with_failing_devices(rt, alloc, case, *fetch, *call)
        }
        Directive::Sinks(count) => runs::with_failing_sinks(rt, alloc, case, *count),
        Directive::Files(count) => runs::with_failing_files(rt, alloc, case, *count),
        Directive::Fronts(count) => runs::of_fronts(rt, alloc, case, *count),
        _ => None,
    }
}

// Does what a line of a case asks for.
fn follow<R: Threads + Sync + Print>(
    rt: &R,
    alloc: Global,
    case: &mut Case,
    line: &str,
) -> Option<()> {
    let directive = Directive::of(line);
    match directive {
        Directive::Words(words) => *case = Case::new(alloc, words)?,
        Directive::Source => case.fills_input = false,
        Directive::Input => case.fills_input = true,
        Directive::Line(text) => {
            case.push(text.as_bytes())?;
            case.push(b"\n")?;
        }
        Directive::Text(count, text) => {
            for _ in 0..count {
                case.push(text.as_bytes())?;
            }
        }
        Directive::Bytes(numbers) => {
            for number in numbers.split_whitespace() {
                case.push(&[number.parse::<u8>().ok()?])?;
            }
        }
        _ => run_case(rt, alloc, case, &directive)?,
    }
    Some(())
}

/// The row and the case that are read, and whether lines belong to the case.
#[derive(Drop)]
struct Tables {
    row: Row,
    case: Case,
    in_cases: bool,
}

// Takes a line of either table.
fn take<R: Threads + Sync + Print>(
    rt: &R,
    alloc: Global,
    tables: &mut Tables,
    line: &str,
) -> Option<()> {
    if line == "#cases" {
        tables.in_cases = true;
        Some(())
    } else if line == "#rows" {
        tables.in_cases = false;
        Some(())
    } else if tables.in_cases {
        follow(rt, alloc, &mut tables.case, line)
    } else {
        take_line(rt, alloc, &mut tables.row, line)
    }
}

fn main(rt: HostRuntime) -> ExitCode {
    let alloc = rt.alloc();
    let Some(case) = Case::new(alloc, "") else {
        return ExitCode::from(1);
    };
    let mut tables = Tables {
        row: Row::new(alloc),
        case,
        in_cases: false,
    };
    for line in rt.lines(alloc) {
        let Ok(line) = line else {
            return ExitCode::from(1);
        };
        if take(&rt, alloc, &mut tables, line.as_str()).is_none() {
            return ExitCode::from(1);
        }
    }
    ExitCode::from(0)
}

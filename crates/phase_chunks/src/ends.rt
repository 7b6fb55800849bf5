// What a phase answers, by what its workers leave.
ghost use Rattle.std.specs.Prelude.{◌≤◌, length};
ghost use Rattle.chunk_reports.specs.Stops.{first_stop_of};
ghost use Rattle.phase_chunks.specs.Answering.{Answers, Finishes};

use crate::combine::combine_held;
use crate::shares::ChunkReport;
use chunk_reports::first_stop;
use sac_base::{Cell, Memory, Op, Stop};

/// What the workers of a phase leave: a report of each chunk, in the order of the chunks, and whether the first row of a
/// fold has a value.
#[derive(Drop)]
pub struct TeamEnd {
    pub reports: Vec<ChunkReport>,
    pub held: Result<bool, Memory>,
}

/// What an array's phase answers: the first stop, or want of memory.
pub fn answer_of(end: &TeamEnd) -> Result<(), Stop>
    ensures { Answers (first_stop_of end.now.reports.items) end.now.held result }
{
    match end.held {
        Ok(_) => first_stop(&end.reports),
        Err(Memory) => Err(Stop::Memory),
    }
}

/// Combines the value of a fold's first row, where it has one, with the neutral value, and answers with the first stop, or
/// want of memory.
pub fn with_neutral(op: Op, end: &TeamEnd, rows: &[Cell], value: &mut [Cell]) -> Result<(), Stop>
    requires { length value.old ≤ length rows.now }
    ensures { Finishes op (first_stop_of end.now.reports.items) end.now.held rows.now value.old value.new result }
{
    if let Err(stop) = first_stop(&end.reports) {
        return Err(stop);
    }
    match end.held {
        Ok(held) => {
            let _ = combine_held(op, value, true, &rows[..value.len()], held);
            Ok(())
        }
        Err(Memory) => Err(Stop::Memory),
    }
}

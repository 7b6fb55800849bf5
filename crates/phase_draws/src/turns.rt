// One worker, which draws chunks until none is left.
ghost use Rattle.std.specs.Prelude.{◌≡◌, ◌+◌, ◌*◌, ◌<◌, ◌≤◌, ◌++◌, length, IfOk, Err, vec_capacity, vec_len};
ghost use Rattle.sac_base.specs.declared.stop.Stop.TheVariants.{Memory};
ghost use Rattle.phase_team.specs.Segments.{Costs};
ghost use Rattle.phase_chunks.specs.Chunks.{cells_of, count_of, HasThreeRows, IsDone, IsMore, PartFits};
ghost use Rattle.phase_chunks.specs.Seats.{IsFresh, Suits};
ghost use Rattle.phase_draws.specs.Reports.{Told};
ghost use Rattle.phase_draws.specs.Rosters.{Begins, IsThrough, SuitsTable};

use crate::draws::{Drawn, draw_next};
use crate::members::{Member, Team};
use chunk_reports::Report;
use phase_chunks::{
    CellWork, CellWorker, ChunkReport, PhaseCells, combine_held, run_chunk, stretch_of,
};
use phase_team::Gate;
use sac_base::{Cell, Stop};
use wl_core::Job;

// Runs one chunk. A fold combines its value with those of the worker's chunks before.
fn run_drawn<H, C: PhaseCells<H>>(
    work: &CellWork<'_, C>,
    worker: &mut CellWorker<C::Worker>,
    drawn: Drawn,
    held: &mut bool,
    rows: &mut [Cell],
) -> ChunkReport
    requires suits { let all = work.now.cells.now in
        Suits (C.cell all) (C.positions all) (C.width all) (C.shared all) work.now.table.now.buffers work.now.share }
    requires seat { IsFresh work.now.table.now worker.old.seat }
    requires worker { C.idle work.now.cells.now worker.old.context }
    requires within { drawn.chunk * work.now.share.size < work.now.share.positions }
    requires part { PartFits work.now.share.job (count_of work.now.share drawn.chunk * work.now.share.width) drawn.part }
    requires rows { HasThreeRows work.now.share.job work.now.share.width (length rows.old) }
    ensures chunk { result.chunk ≡ drawn.chunk }
    ensures done { let share = work.now.share in
        IsDone share.job share.width (cells_of (C.cell work.now.cells.now) share drawn.chunk) drawn.part result.part result.end }
    ensures combined { let share = work.now.share in let cells = cells_of (C.cell work.now.cells.now) share drawn.chunk in
        IfOk result.end (λ _. IsMore share.job share.width cells held.old rows.old held.new rows.new) }
    ensures worker { C.idle work.now.cells.now worker.new.context }
    ensures spent { let all = work.now.cells.now in let share = work.now.share in
        IfOk result.end (λ _. Costs (C.cost all) (drawn.chunk * share.size) (count_of share drawn.chunk)
        (C.spent all worker.old.context) (C.spent all worker.new.context)) }
    ensures seat { worker.new.seat ≡ worker.old.seat }
{
    let Drawn { chunk, part } = drawn;
    let share = work.share;
    let stretch = stretch_of(share, chunk);
    let (part, end) = match share.job {
        Job::Write => run_chunk(work, worker, stretch, part, rows),
        Job::Fold(_, op) => {
            let (total, two) = rows.split_at_mut(share.width);
            let (part, end) = run_chunk(work, worker, stretch, part, two);
            if let Ok(more) = end {
                *held = combine_held(op, total, *held, &two[..share.width], more);
            }
            (part, end)
        }
    };
    Report { chunk, part, end }
}

/// Draws chunks and runs them until none is left, and answers whether the first row has a value then. After a chunk that
/// stopped it runs no other one: it only hands back their parts.
pub(crate) fn run_turns<H, C: PhaseCells<H>, G: Gate, R>(
    team: &Team<'_, C, G, R>,
    member: &mut Member<C::Worker>,
    rows: &mut [Cell],
) -> bool
    requires suits { let all = team.now.work.cells.now in
        SuitsTable (C.cell all) (C.positions all) (C.width all) (C.shared all) team.now.work.table.now team.now.work.share }
    requires begins { Begins team.now.work.table.now member.old.worker.seat member.old.reports }
    requires worker { C.idle team.now.work.cells.now member.old.worker.context }
    requires rows { HasThreeRows team.now.work.share.job team.now.work.share.width (length rows.old) }
    ensures through { let work = team.now.work in
        IsThrough (C.cell work.cells.now) work.share work.table.now member.new.worker.seat member.new.reports }
    ensures worker { C.idle team.now.work.cells.now member.new.worker.context }
    ensures told { let all = team.now.work.cells.now in
        Told (C.cell all) (C.cost all) team.now.work.share member.new.reports.items
        (C.spent all member.old.worker.context) (C.spent all member.new.worker.context) result rows.new }
{
    let work = &team.work;
    let (mut held, mut going) = (false, true);
    while let Some(drawn) = draw_next(work.table, &mut member.worker.seat) {
        let report = if going {
            team.gate.chunk_begins(member.number, drawn.chunk);
            run_drawn(work, &mut member.worker, drawn, &mut held, rows)
        } else {
            handed_back(drawn)
        };
        going = report.end.is_ok();
        member.reports.push_reserved(report);
    }
    held
}

// The part of a chunk that is not run.
fn handed_back(drawn: Drawn) -> ChunkReport
    ensures { (result.chunk ≡ drawn.chunk) × (result.part ≡ drawn.part) × (result.end ≡ Err Memory) }
{
    let Drawn { chunk, part } = drawn;
    Report {
        chunk,
        part,
        end: Err(Stop::Memory),
    }
}

/// Puts a worker's reports behind those that are there.
pub(crate) fn gather_reports(reports: &mut Vec<ChunkReport>, mine: Vec<ChunkReport>)
    requires { vec_len reports.old + length mine.items ≤ vec_capacity reports.old }
    ensures items { reports.new.items ≡ reports.old.items ++ mine.items }
    ensures capacity { vec_capacity reports.new ≡ vec_capacity reports.old }
{
    for report in mine {
        reports.push_reserved(report);
    }
}

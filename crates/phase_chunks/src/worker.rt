// One worker, which computes the cells of one chunk.
ghost use Rattle.std.specs.Prelude.{◌≡◌, ◌+◌, ◌*◌, ◌≤◌, length, take, IfOk};
ghost use Rattle.wl_core.specs.declared.setup.Job.TheVariants.{Write as Store};
ghost use Rattle.phase_team.specs.Segments.{cells_from, Gathered, Ran, StoredNext};
ghost use Rattle.phase_chunks.specs.Chunks.{HasTwoRows, IsDone, IsPartial, PartFits};
ghost use Rattle.phase_chunks.specs.Seats.{HasSpent, IsFresh, IsSuited};

use crate::cells::PhaseCells;
use crate::gather::gather;
use crate::shares::{ChunkPart, Stretch};
use crate::work::{CellWork, CellWorker};
use phase_team::CellEnd;
use sac_base::{Cell, Op, Stop};
use wl_core::Job;

// Writes the next cells one after another, at least one of them, or up to the first that stops. Answers how many.
fn fill_next<H, C: PhaseCells<H>>(
    work: &CellWork<'_, C>,
    worker: &mut CellWorker<C::Worker>,
    stretch: Stretch,
    rows: &mut [Cell],
) -> Result<usize, Stop>
    requires suits { IsSuited C.cell C.positions C.width C.shared work.now }
    requires some { 1 ≤ stretch.count }
    requires within { stretch.start + stretch.count ≤ C.positions work.now.cells.now }
    requires job { work.now.share.job ≡ Store }
    requires seat { IsFresh work.now.table.now worker.old.seat }
    requires worker { C.idle work.now.cells.now worker.old.context }
    requires room { length rows.old ≡ stretch.count * work.now.share.width }
    ensures stored { StoredNext work.now.share.width (C.cell work.now.cells.now) stretch.start stretch.count rows.new result }
    ensures worker { C.idle work.now.cells.now worker.new.context }
    ensures spent { IfOk result (λ n. HasSpent C.cost C.spent work.now stretch.start n worker.old worker.new) }
    ensures seat { worker.new.seat ≡ worker.old.seat }
{
    let Stretch { start, count } = stretch;
    let together = work.cells.stretch(&mut worker.context, start, count, rows);
    if together > 0 {
        return Ok(together);
    }
    let into = &mut rows[0..work.share.width];
    match work.cells.cell(
        &mut worker.context,
        work.table,
        &mut worker.seat,
        start,
        into,
    ) {
        CellEnd::Value => Ok(1),
        CellEnd::NotHeld => unreachable!(),
        CellEnd::Stopped(stop) => Err(stop),
    }
}

// Writes cells one after another, up to the first that stops.
fn fill<H, C: PhaseCells<H>>(
    work: &CellWork<'_, C>,
    worker: &mut CellWorker<C::Worker>,
    stretch: Stretch,
    rows: &mut [Cell],
) -> Result<bool, Stop>
    requires suits { IsSuited C.cell C.positions C.width C.shared work.now }
    requires within { stretch.start + stretch.count ≤ C.positions work.now.cells.now }
    requires job { work.now.share.job ≡ Store }
    requires seat { IsFresh work.now.table.now worker.old.seat }
    requires worker { C.idle work.now.cells.now worker.old.context }
    requires room { length rows.old ≡ stretch.count * work.now.share.width }
    ensures ran { Ran Store work.now.share.width (cells_from (C.cell work.now.cells.now) stretch.start stretch.count) rows.new result }
    ensures worker { C.idle work.now.cells.now worker.new.context }
    ensures spent { IfOk result (λ _. HasSpent C.cost C.spent work.now stretch.start stretch.count worker.old worker.new) }
    ensures seat { worker.new.seat ≡ worker.old.seat }
{
    let mut done = 0;
    while done < stretch.count {
        let next = Stretch {
            start: stretch.start + done,
            count: stretch.count - done,
        };
        let rest = &mut rows[done * work.share.width..];
        match fill_next(work, worker, next, rest) {
            Ok(more) => done += more,
            Err(stop) => return Err(stop),
        }
    }
    Ok(true)
}

// The same in rows of which the first is the value's and the second is spare.
fn gather_rows<H, C: PhaseCells<H>>(
    work: &CellWork<'_, C>,
    worker: &mut CellWorker<C::Worker>,
    op: Op,
    stretch: Stretch,
    rows: &mut [Cell],
) -> Result<bool, Stop>
    requires suits { IsSuited C.cell C.positions C.width C.shared work.now }
    requires within { stretch.start + stretch.count ≤ C.positions work.now.cells.now }
    requires seat { IsFresh work.now.table.now worker.old.seat }
    requires worker { C.idle work.now.cells.now worker.old.context }
    requires rows { length rows.old ≡ work.now.share.width + work.now.share.width }
    ensures ran { let width = work.now.share.width in
        Gathered op width (cells_from (C.cell work.now.cells.now) stretch.start stretch.count) (take width rows.new) result }
    ensures worker { C.idle work.now.cells.now worker.new.context }
    ensures spent { IfOk result (λ _. HasSpent C.cost C.spent work.now stretch.start stretch.count worker.old worker.new) }
    ensures seat { worker.new.seat ≡ worker.old.seat }
{
    let (row, spare) = rows.split_at_mut(work.share.width);
    gather(work, worker, op, stretch, row, spare)
}

// Computes the cells of one chunk into its part, up to the first that stops.
fn fill_part<H, C: PhaseCells<H>>(
    work: &CellWork<'_, C>,
    worker: &mut CellWorker<C::Worker>,
    stretch: Stretch,
    part: ChunkPart,
) -> (ChunkPart, Result<bool, Stop>)
    requires suits { IsSuited C.cell C.positions C.width C.shared work.now }
    requires within { stretch.start + stretch.count ≤ C.positions work.now.cells.now }
    requires job { work.now.share.job ≡ Store }
    requires seat { IsFresh work.now.table.now worker.old.seat }
    requires worker { C.idle work.now.cells.now worker.old.context }
    requires part { PartFits Store (stretch.count * work.now.share.width) part }
    ensures done { IsDone Store work.now.share.width (cells_from (C.cell work.now.cells.now) stretch.start stretch.count) part result.0 result.1 }
    ensures worker { C.idle work.now.cells.now worker.new.context }
    ensures spent { IfOk result.1 (λ _. HasSpent C.cost C.spent work.now stretch.start stretch.count worker.old worker.new) }
    ensures seat { worker.new.seat ≡ worker.old.seat }
{
    let Some(mut own) = part else { unreachable!() };
    let end = fill(work, worker, stretch, own.as_mut_slice());
    (Some(own), end)
}

/// Computes the cells of one chunk, up to the first that stops: into its part, or combined into the first of two rows.
pub fn run_chunk<H, C: PhaseCells<H>>(
    work: &CellWork<'_, C>,
    worker: &mut CellWorker<C::Worker>,
    stretch: Stretch,
    part: ChunkPart,
    rows: &mut [Cell],
) -> (ChunkPart, Result<bool, Stop>)
    requires suits { IsSuited C.cell C.positions C.width C.shared work.now }
    requires within { stretch.start + stretch.count ≤ C.positions work.now.cells.now }
    requires seat { IsFresh work.now.table.now worker.old.seat }
    requires worker { C.idle work.now.cells.now worker.old.context }
    requires part { PartFits work.now.share.job (stretch.count * work.now.share.width) part }
    requires rows { HasTwoRows work.now.share.job work.now.share.width (length rows.old) }
    ensures done { let share = work.now.share in
        IsDone share.job share.width (cells_from (C.cell work.now.cells.now) stretch.start stretch.count) part result.0 result.1 }
    ensures combined { let share = work.now.share in
        IfOk result.1 (λ held. IsPartial share.job share.width (cells_from (C.cell work.now.cells.now) stretch.start stretch.count) held rows.new) }
    ensures worker { C.idle work.now.cells.now worker.new.context }
    ensures spent { IfOk result.1 (λ _. HasSpent C.cost C.spent work.now stretch.start stretch.count worker.old worker.new) }
    ensures seat { worker.new.seat ≡ worker.old.seat }
{
    match work.share.job {
        Job::Write => fill_part(work, worker, stretch, part),
        Job::Fold(_, op) => {
            let end = gather_rows(work, worker, op, stretch, rows);
            (part, end)
        }
    }
}

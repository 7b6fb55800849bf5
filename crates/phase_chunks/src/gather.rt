// Cells of one chunk that are combined.

ghost use Rattle.std.specs.Prelude.{◌≡◌, ℕ, ◌+◌, ◌<◌, ◌≤◌, length, IfOk, Some, Ok};
ghost use Rattle.phase_team.specs.Segments.{cells_from, value_if, Gathered};
ghost use Rattle.phase_chunks.specs.Gathering.{GatheredNext};
ghost use Rattle.phase_chunks.specs.Seats.{HasSpent, IsFresh, IsSuited};

use crate::cells::PhaseCells;
use crate::combine::{combine_held, combine_numbers};
use crate::shares::Stretch;
use crate::work::{CellWork, CellWorker};
use phase_team::CellEnd;
use sac_base::{Cell, Op, Stop};

// How many cells are computed together at most before they are combined.
const TOGETHER: usize = 512;

/// Combines cells one after another into the first row, up to the first that stops.
pub(crate) fn gather<H, C: PhaseCells<H>>(
    work: &CellWork<'_, C>,
    worker: &mut CellWorker<C::Worker>,
    op: Op,
    stretch: Stretch,
    row: &mut [Cell],
    spare: &mut [Cell],
) -> Result<bool, Stop>
    requires suits { IsSuited C.cell C.positions C.width C.shared work.now }
    requires within { stretch.start + stretch.count ≤ C.positions work.now.cells.now }
    requires seat { IsFresh work.now.table.now worker.old.seat }
    requires worker { C.idle work.now.cells.now worker.old.context }
    requires rows { (length row.old ≡ work.now.share.width) × (length spare.old ≡ work.now.share.width) }
    ensures ran { Gathered op work.now.share.width (cells_from (C.cell work.now.cells.now) stretch.start stretch.count) row.new result }
    ensures worker { C.idle work.now.cells.now worker.new.context }
    ensures spent { IfOk result (λ _. HasSpent C.cost C.spent work.now stretch.start stretch.count worker.old worker.new) }
    ensures seat { worker.new.seat ≡ worker.old.seat }
{
    let mut held = false;
    let mut done = 0;
    while done < stretch.count {
        let next = Stretch {
            start: stretch.start + done,
            count: stretch.count - done,
        };
        match gather_next(work, worker, op, next, row, spare, &mut held) {
            Ok(more) => done += more,
            Err(stop) => return Err(stop),
        }
    }
    Ok(held)
}

// Combines the next cells with the row, where it has a value: some that are computed together, or one, or up to the first that stops.
// Answers how many.
fn gather_next<H, C: PhaseCells<H>>(
    work: &CellWork<'_, C>,
    worker: &mut CellWorker<C::Worker>,
    op: Op,
    stretch: Stretch,
    row: &mut [Cell],
    spare: &mut [Cell],
    held: &mut bool,
) -> Result<usize, Stop>
    requires suits { IsSuited C.cell C.positions C.width C.shared work.now }
    requires within { stretch.start + stretch.count ≤ C.positions work.now.cells.now }
    requires seat { IsFresh work.now.table.now worker.old.seat }
    requires worker { C.idle work.now.cells.now worker.old.context }
    requires some { 1 ≤ stretch.count }
    requires rows { (length row.old ≡ work.now.share.width) × (length spare.old ≡ work.now.share.width) }
    ensures ran { GatheredNext op work.now.share.width (C.cell work.now.cells.now) stretch.start stretch.count
        (value_if held.old row.old) (value_if held.new row.new) result }
    ensures worker { C.idle work.now.cells.now worker.new.context }
    ensures spent { IfOk result (λ n. HasSpent C.cost C.spent work.now stretch.start n worker.old worker.new) }
    ensures seat { worker.new.seat ≡ worker.old.seat }
{
    if work.share.width == 1 {
        let together = gather_together(work, worker, op, stretch, row, *held);
        if together > 0 {
            *held = true;
            return Ok(together);
        }
    }
    gather_one(work, worker, op, stretch.start, row, spare, held)
}

// Combines the next cells of one element each with the row, as far as they are computed together. Answers how many.
fn gather_together<H, C: PhaseCells<H>>(
    work: &CellWork<'_, C>,
    worker: &mut CellWorker<C::Worker>,
    op: Op,
    stretch: Stretch,
    row: &mut [Cell],
    held: bool,
) -> usize
    requires suits { IsSuited C.cell C.positions C.width C.shared work.now }
    requires within { stretch.start + stretch.count ≤ C.positions work.now.cells.now }
    requires worker { C.idle work.now.cells.now worker.old.context }
    requires one { work.now.share.width ≡ 1 }
    requires row { length row.old ≡ 1 }
    ensures ran { 1 ≤ result → GatheredNext op 1 (C.cell work.now.cells.now) stretch.start stretch.count
        (value_if held row.old) (Some row.new) (Ok result) }
    ensures none { result ≡ 0 → row.new ≡ row.old }
    ensures worker { C.idle work.now.cells.now worker.new.context }
    ensures free { let all = work.now.cells.now in (j kind : ℕ) → j < result → C.cost all kind (stretch.start + j) ≡ 0 }
    ensures spent { let all = work.now.cells.now in (kind : ℕ) → C.spent all worker.new.context kind ≡ C.spent all worker.old.context kind }
    ensures seat { worker.new.seat ≡ worker.old.seat }
{
    let mut strip: [Cell; 512] = [0; TOGETHER];
    let count = stretch.count.min(TOGETHER);
    let cells = &mut strip[..count];
    let together = work
        .cells
        .stretch(&mut worker.context, stretch.start, count, cells);
    if together > 0 {
        combine_numbers(op, row, held, &strip[..together]);
    }
    together
}

// Combines one cell with the row, if it has a value.
fn gather_one<H, C: PhaseCells<H>>(
    work: &CellWork<'_, C>,
    worker: &mut CellWorker<C::Worker>,
    op: Op,
    position: usize,
    row: &mut [Cell],
    spare: &mut [Cell],
    held: &mut bool,
) -> Result<usize, Stop>
    requires suits { IsSuited C.cell C.positions C.width C.shared work.now }
    requires within { position < C.positions work.now.cells.now }
    requires seat { IsFresh work.now.table.now worker.old.seat }
    requires worker { C.idle work.now.cells.now worker.old.context }
    requires rows { (length row.old ≡ work.now.share.width) × (length spare.old ≡ work.now.share.width) }
    ensures ran { (n : ℕ) → 1 ≤ n → GatheredNext op work.now.share.width (C.cell work.now.cells.now) position n
        (value_if held.old row.old) (value_if held.new row.new) result }
    ensures one { IfOk result (λ k. k ≡ 1) }
    ensures worker { C.idle work.now.cells.now worker.new.context }
    ensures spent { IfOk result (λ n. HasSpent C.cost C.spent work.now position n worker.old worker.new) }
    ensures seat { worker.new.seat ≡ worker.old.seat }
{
    match work.cells.cell(
        &mut worker.context,
        work.table,
        &mut worker.seat,
        position,
        spare,
    ) {
        CellEnd::Value => {
            *held = combine_held(op, row, *held, spare, true);
            Ok(1)
        }
        CellEnd::NotHeld => Ok(1),
        CellEnd::Stopped(stop) => Err(stop),
    }
}

// A worker that has drawn until no chunk was left.
ghost use Rattle.std.specs.Prelude.{◌≡◌, ℕ, ◌+◌, ◌≤◌, ◌++◌, length, OnOk, vec_len, vec_capacity};
ghost use Rattle.phase_draws.specs.Crews.{IsSettled};
ghost use Rattle.phase_draws.specs.Reports.{AreFrames};
ghost use Rattle.phase_draws.specs.Rosters.{IsThrough};
ghost use Rattle.phase_team.specs.Segments.{Same};

use crate::members::{Member, Roster};
use crate::turns::gather_reports;
use phase_chunks::{CellWork, CellWorker, PhaseCells};
use sac_base::Memory;

/// Takes a worker's seat, its reports and its context back.
pub(crate) fn settle_member<H, C: PhaseCells<H>>(
    work: &CellWork<'_, C>,
    home: &mut H,
    roster: &mut Roster,
    member: Member<C::Worker>,
) -> Result<(), Memory>
    requires through { IsThrough (C.cell work.now.cells.now) work.now.share work.now.table.now member.worker.seat member.reports }
    requires phase { roster.old.frame.phase ≡ work.now.table.now }
    requires worker { C.idle work.now.cells.now member.worker.context }
    requires home { C.open_home work.now.cells.now home.old }
    requires room { vec_len roster.old.reports + length member.reports.items ≤ vec_capacity roster.old.reports }
    requires frames { AreFrames roster.old.reports.items roster.old.frame }
    ensures reports { roster.new.reports.items ≡ roster.old.reports.items ++ member.reports.items }
    ensures frames { AreFrames roster.new.reports.items roster.new.frame }
    ensures frame { IsSettled roster.old.frame roster.new.frame }
    ensures home { C.open_home work.now.cells.now home.new }
    ensures kept { let all = work.now.cells.now in OnOk result ((kind : ℕ)
        → Same kind (C.kept all home.new kind) (C.kept all home.old kind + C.spent all member.worker.context kind)) }
    ensures capacity { vec_capacity roster.new.reports ≡ vec_capacity roster.old.reports }
{
    let Member {
        number: _,
        worker,
        reports,
    } = member;
    let CellWorker { seat, context } = worker;
    gather_reports(&mut roster.reports, reports);
    match seat {
        Some(seat) => work.table.leave(seat, &mut roster.frame),
        None => unreachable!(),
    }
    work.cells.finish(context, home)
}

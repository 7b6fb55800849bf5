// The workers of a phase, each in a thread of its own.
ghost use Rattle.std.specs.Prelude.{◌≡◌, ℕ, ◌+◌, ◌^◌, ◌<◌, ◌≤◌, [], length, vec_len, vec_capacity};
ghost use Rattle.std.specs.Thread.{IsSync, IsSend};
ghost use Rattle.phase_team.specs.Segments.{HasRows, MergesRows};
ghost use Rattle.phase_chunks.specs.Chunks.{HasThreeRows};
ghost use Rattle.phase_draws.specs.Crews.{IsBack, IsRun};
ghost use Rattle.phase_draws.specs.Reports.{Grew, GrewBoth, HasRowsFor, Told};
ghost use Rattle.phase_draws.specs.Rosters.{Begins, CameBack, HasPlaces, IsThrough, SuitsTable};

use crate::members::{Member, Roster, Team};
use crate::settles::settle_member;
use crate::turns::run_turns;
use phase_chunks::{CellWorker, ChunkReport, PhaseCells, Share, combine_held};
use phase_team::Gate;
use sac_base::{Cell, Memory};
use std::thread::{Threads, join_mut};
use wl_core::Job;

/// Runs a worker with this context and one more for each further room, as far as memory is found for their contexts. Each
/// draws chunks until none is left. The reports of all go behind those that are there. For a fold the first row has the
/// values of their cells combined.
#[cycle(crew)]
pub(crate) fn run_team<H: Send, C: PhaseCells<H>, G: Gate, R: Threads + Sync>(
    team: &Team<'_, C, G, R>,
    home: &mut H,
    roster: &mut Roster,
    context: C::Worker,
    room: Vec<ChunkReport>,
    rows: &mut [Cell],
) -> Result<bool, Memory>
    requires suits { let all = team.now.work.cells.now in
        SuitsTable (C.cell all) (C.positions all) (C.width all) (C.shared all) team.now.work.table.now team.now.work.share }
    requires places { let work = team.now.work in
        HasPlaces (C.cell work.cells.now) work.share work.table.now (vec_len roster.old.rooms + 1) roster.old }
    requires worker { C.idle team.now.work.cells.now context }
    requires unspent { (kind : ℕ) → C.spent team.now.work.cells.now context kind ≡ 0 }
    requires home { C.open_home team.now.work.cells.now home.old }
    requires room { (room.items ≡ []) × (length team.now.work.table.now.parts ≤ vec_capacity room) }
    requires rows { HasRowsFor team.now.work.share.job team.now.work.share.width (vec_len roster.old.rooms + 1) (length rows.old) }
    ensures back { let work = team.now.work in
        CameBack (C.cell work.cells.now) work.share work.table.now (vec_len roster.old.rooms + 1) roster.old roster.new }
    ensures grew { let all = team.now.work.cells.now in
        Grew (C.cell all) (C.cost all) team.now.work.share roster.old.reports.items roster.new.reports.items
        (C.kept all home.old) (C.kept all home.new) rows.new result }
    ensures home { C.open_home team.now.work.cells.now home.new }
    ensures frame { IsRun roster.old.frame roster.new.frame }
{
    let seat = team.work.table.seat(&mut roster.frame);
    let worker = CellWorker {
        seat: Some(seat),
        context,
    };
    let mut member = Member {
        number: roster.begun,
        worker,
        reports: room,
    };
    roster.begun += 1;
    let end = run_first(team, home, roster, &mut member, rows);
    match settle_member(&team.work, home, roster, member) {
        Ok(()) => end,
        Err(Memory) => Err(Memory),
    }
}

// A worker for each room, as far as memory is found for their contexts.
#[cycle(crew)]
fn run_others<H: Send, C: PhaseCells<H>, G: Gate, R: Threads + Sync>(
    team: &Team<'_, C, G, R>,
    home: &mut H,
    roster: &mut Roster,
    rows: &mut [Cell],
) -> Result<bool, Memory>
    requires suits { let all = team.now.work.cells.now in
        SuitsTable (C.cell all) (C.positions all) (C.width all) (C.shared all) team.now.work.table.now team.now.work.share }
    requires places { let work = team.now.work in
        HasPlaces (C.cell work.cells.now) work.share work.table.now (vec_len roster.old.rooms) roster.old }
    requires home { C.open_home team.now.work.cells.now home.old }
    requires rows { HasRowsFor team.now.work.share.job team.now.work.share.width (vec_len roster.old.rooms) (length rows.old) }
    ensures back { let work = team.now.work in
        CameBack (C.cell work.cells.now) work.share work.table.now (vec_len roster.old.rooms) roster.old roster.new }
    ensures grew { let all = team.now.work.cells.now in
        Grew (C.cell all) (C.cost all) team.now.work.share roster.old.reports.items roster.new.reports.items
        (C.kept all home.old) (C.kept all home.new) rows.new result }
    ensures home { C.open_home team.now.work.cells.now home.new }
    ensures frame { IsBack roster.old.frame roster.new.frame }
{
    let Some(room) = roster.rooms.pop() else {
        return Ok(false);
    };
    let Ok(context) = team.work.cells.begin(home) else {
        return Ok(false);
    };
    run_team(team, home, roster, context, room, rows)
}

// The first worker, beside the others where there is a room for one.
#[cycle(crew)]
fn run_first<H: Send, C: PhaseCells<H>, G: Gate, R: Threads + Sync>(
    team: &Team<'_, C, G, R>,
    home: &mut H,
    roster: &mut Roster,
    member: &mut Member<C::Worker>,
    rows: &mut [Cell],
) -> Result<bool, Memory>
    requires suits { let all = team.now.work.cells.now in
        SuitsTable (C.cell all) (C.positions all) (C.width all) (C.shared all) team.now.work.table.now team.now.work.share }
    requires places { let work = team.now.work in
        HasPlaces (C.cell work.cells.now) work.share work.table.now (vec_len roster.old.rooms) roster.old }
    requires begins { Begins team.now.work.table.now member.old.worker.seat member.old.reports }
    requires worker { C.idle team.now.work.cells.now member.old.worker.context }
    requires home { C.open_home team.now.work.cells.now home.old }
    requires rows { HasRowsFor team.now.work.share.job team.now.work.share.width (vec_len roster.old.rooms + 1) (length rows.old) }
    ensures through { let work = team.now.work in
        IsThrough (C.cell work.cells.now) work.share work.table.now member.new.worker.seat member.new.reports }
    ensures worker { C.idle team.now.work.cells.now member.new.worker.context }
    ensures back { let work = team.now.work in
        CameBack (C.cell work.cells.now) work.share work.table.now (vec_len roster.old.rooms) roster.old roster.new }
    ensures grew { let all = team.now.work.cells.now in
        GrewBoth (C.cell all) (C.cost all) team.now.work.share member.new.reports.items roster.old.reports.items roster.new.reports.items
        (C.kept all home.old) (C.kept all home.new) (C.spent all member.old.worker.context) (C.spent all member.new.worker.context) rows.new result }
    ensures home { C.open_home team.now.work.cells.now home.new }
    ensures frame { IsBack roster.old.frame roster.new.frame }
{
    if roster.rooms.is_empty() {
        return Ok(run_turns(team, member, rows));
    }
    let share = team.work.share;
    let (own, rest) = rows.split_at_mut(own_room(share));
    let (held, more) = side_by_side(team, home, roster, member, own, rest);
    Ok(merge_rows(share, own, rest, held, more?))
}

// This worker in a thread of its own, and the others here.
#[cycle(crew)]
fn side_by_side<H: Send, C: PhaseCells<H>, G: Gate, R: Threads + Sync>(
    team: &Team<'_, C, G, R>,
    home: &mut H,
    roster: &mut Roster,
    member: &mut Member<C::Worker>,
    own: &mut [Cell],
    rest: &mut [Cell],
) -> (bool, Result<bool, Memory>)
    requires suits { let all = team.now.work.cells.now in
        SuitsTable (C.cell all) (C.positions all) (C.width all) (C.shared all) team.now.work.table.now team.now.work.share }
    requires places { let work = team.now.work in
        HasPlaces (C.cell work.cells.now) work.share work.table.now (vec_len roster.old.rooms) roster.old }
    requires begins { Begins team.now.work.table.now member.old.worker.seat member.old.reports }
    requires worker { C.idle team.now.work.cells.now member.old.worker.context }
    requires home { C.open_home team.now.work.cells.now home.old }
    requires own { HasThreeRows team.now.work.share.job team.now.work.share.width (length own.old) }
    requires rest { HasRowsFor team.now.work.share.job team.now.work.share.width (vec_len roster.old.rooms) (length rest.old) }
    ensures through { let work = team.now.work in
        IsThrough (C.cell work.cells.now) work.share work.table.now member.new.worker.seat member.new.reports }
    ensures worker { C.idle team.now.work.cells.now member.new.worker.context }
    ensures told { let all = team.now.work.cells.now in
        Told (C.cell all) (C.cost all) team.now.work.share member.new.reports.items
        (C.spent all member.old.worker.context) (C.spent all member.new.worker.context) result.0 own.new }
    ensures back { let work = team.now.work in
        CameBack (C.cell work.cells.now) work.share work.table.now (vec_len roster.old.rooms) roster.old roster.new }
    ensures grew { let all = team.now.work.cells.now in
        Grew (C.cell all) (C.cost all) team.now.work.share roster.old.reports.items roster.new.reports.items
        (C.kept all home.old) (C.kept all home.new) rest.new result.1 }
    ensures home { C.open_home team.now.work.cells.now home.new }
    ensures frame { IsBack roster.old.frame roster.new.frame }
{
    let mut here = || -> bool
        requires { let work = team.now.work in let all = work.cells.now in IsSync C.row × IsSync G.row × IsSync R.row × IsSend C.Worker.row
            × SuitsTable (C.cell all) (C.positions all) (C.width all) (C.shared all) work.table.now work.share
            × Begins work.table.now member.now.worker.seat member.now.reports × C.idle all member.now.worker.context
            × HasThreeRows work.share.job work.share.width (length own.now) }
        ensures through { let work = team.entry.now.work in
            IsThrough (C.cell work.cells.now) work.share work.table.now member.exit.now.worker.seat member.exit.now.reports }
        ensures worker { C.idle team.entry.now.work.cells.now member.exit.now.worker.context }
        ensures told { let all = team.entry.now.work.cells.now in
            Told (C.cell all) (C.cost all) team.entry.now.work.share member.exit.now.reports.items
            (C.spent all member.entry.now.worker.context) (C.spent all member.exit.now.worker.context) result own.exit.now }
    { run_turns(team, member, own) };
    let mut there = || -> Result<bool, Memory>
        requires { let work = team.now.work in let all = work.cells.now in IsSync R.row × IsSync C.row × IsSync G.row × IsSend C.Worker.row × IsSend H.row
            × SuitsTable (C.cell all) (C.positions all) (C.width all) (C.shared all) work.table.now work.share
            × HasPlaces (C.cell all) work.share work.table.now (vec_len roster.now.rooms) roster.now × C.open_home all home.now
            × HasRowsFor work.share.job work.share.width (vec_len roster.now.rooms) (length rest.now) }
        ensures back { let work = team.entry.now.work in
            CameBack (C.cell work.cells.now) work.share work.table.now (vec_len roster.entry.now.rooms) roster.entry.now roster.exit.now }
        ensures grew { let all = team.entry.now.work.cells.now in
            Grew (C.cell all) (C.cost all) team.entry.now.work.share roster.entry.now.reports.items roster.exit.now.reports.items
            (C.kept all home.entry.now) (C.kept all home.exit.now) rest.exit.now result }
        ensures home { C.open_home team.entry.now.work.cells.now home.exit.now }
        ensures frame { IsBack roster.entry.now.frame roster.exit.now.frame }
    { run_others(team, home, roster, rest) };
    join_mut(team.rt, &mut here, &mut there)
}

// How many elements a worker's rows have.
fn own_room(share: Share) -> usize
    ensures { (n : ℕ) → n < 2 ^ 64 → HasThreeRows share.job share.width n → HasThreeRows share.job share.width result × (result ≤ n) }
{
    match share.job {
        Job::Write => 0,
        Job::Fold(_, _) => share.width.saturating_mul(3),
    }
}

// Combines what this worker's cells come to with what the others' come to, into the first row.
fn merge_rows(share: Share, own: &mut [Cell], rest: &[Cell], held: bool, more: bool) -> bool
    requires { HasRows share.job share.width (length own.old) (length rest.now) }
    ensures { MergesRows share.job share.width own.old rest.now held more own.new result }
{
    match share.job {
        Job::Write => held || more,
        Job::Fold(_, op) => combine_held(
            op,
            &mut own[..share.width],
            held,
            &rest[..share.width],
            more,
        ),
    }
}

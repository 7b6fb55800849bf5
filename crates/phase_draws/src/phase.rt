// The table and the workers of a whole phase.
ghost use Rattle.std.specs.Prelude.{◌≡◌, ℕ, ◌*◌, ◌≤◌, length, IfOk, IfErr};
ghost use Rattle.count_table.specs.Seats.{AreReferences};
ghost use Rattle.phase_chunks.specs.Seats.{Suits};
ghost use Rattle.phase_draws.specs.Crews.{HaveRoom};
ghost use Rattle.phase_draws.specs.Endings.{one_phase, IsEnded};
ghost use Rattle.phase_draws.specs.Reports.{HasRowsFor, PartsFit};

use crate::crew::run_team;
use crate::members::{Roster, Team};
use crate::rooms::{Begun, Rooms};
use chunk_reports::put_in_order;
use count_table::{Phase, Tally, Unopened};
use index_cutter::Cutting;
use phase_chunks::{CellWork, ChunkPart, PhaseCells, Share, TeamEnd};
use phase_team::Gate;
use sac_base::Cell;
use std::alloc::Global;
use std::thread::Threads;

/// A phase as its caller knows it: where it runs, what its cells are, who is told of each chunk, how the positions are cut,
/// how many workers there may be, at most 64, and how many positions.
#[derive(Drop)]
pub struct LoopPhase<'a, C, G, R> {
    pub rt: &'a R,
    pub alloc: Global,
    pub cells: &'a C,
    pub gate: &'a G,
    pub cutting: Cutting,
    pub workers: u32,
    pub positions: usize,
}

/// Opens a table with the parts that are in their slots, runs its workers, closes it into the tally, and puts their reports
/// in order. Where no memory is found to begin, the parts come back.
pub(crate) fn run_phase<H: Send, C: PhaseCells<H>, G: Gate, R: Threads + Sync>(
    phase: &LoopPhase<'_, C, G, R>,
    share: Share,
    begun: Begun,
    rows: &mut [Cell],
    home: &mut H,
    counts: &mut [u64],
    tally: &mut Tally,
) -> Result<TeamEnd, Unopened<ChunkPart>>
    requires suits { let all = phase.now.cells.now in Suits (C.cell all) (C.positions all) (C.width all) (C.shared all) (length counts.old) share }
    requires parts { PartsFit share begun.slots.items }
    requires few { length begun.slots.items ≤ 4096 }
    requires covers { share.positions ≤ length begun.slots.items * share.size }
    requires rooms { (workers : ℕ) × (workers ≤ 64) × HaveRoom (length begun.slots.items) workers begun.rooms
        × HasRowsFor share.job share.width workers (length rows.old) }
    requires home { C.open_home phase.now.cells.now home.old }
    requires counts { AreReferences counts.old }
    ensures ended { let all = phase.now.cells.now in IfOk result (λ end. IsEnded (C.cell all) (C.cost all) share begun.slots.items
        (C.kept all home.old) (C.kept all home.new) rows.new end) }
    ensures tally { IfOk result (λ _. tally.new ≡ one_phase (length begun.slots.items) tally.old) }
    ensures back { IfErr result (λ refused. refused.parts.items ≡ begun.slots.items) }
    ensures home { C.open_home phase.now.cells.now home.new }
    ensures counts { counts.new ≡ counts.old }
{
    let Begun { slots, rooms } = begun;
    let Ok(context) = phase.cells.begin(home) else {
        return Err(Unopened { parts: slots });
    };
    let (table, frame) = match Phase::open_parts(phase.alloc, counts, slots) {
        Ok(opened) => opened,
        Err(refused) => {
            let _ = phase.cells.finish(context, home);
            return Err(refused);
        }
    };
    let Rooms {
        mine,
        others,
        reports,
    } = rooms;
    let mut roster = Roster {
        frame,
        begun: 0,
        rooms: others,
        reports,
    };
    let held = {
        let work = CellWork {
            cells: phase.cells,
            table: &table,
            share,
        };
        let team = Team {
            rt: phase.rt,
            gate: phase.gate,
            work,
        };
        run_team(&team, home, &mut roster, context, mine, rows)
    };
    let Roster {
        frame,
        begun: _,
        rooms: _,
        mut reports,
    } = roster;
    table.close(frame, counts, tally);
    put_in_order(&mut reports);
    Ok(TeamEnd { reports, held })
}

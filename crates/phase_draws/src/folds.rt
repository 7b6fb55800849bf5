// Phases that combine their cells.
ghost use Rattle.std.specs.Prelude.{◌≡◌, ◌+◌, ◌*◌, ◌≤◌, IsTrue, None, length, replicate, IfOk};
ghost use Rattle.count_table.specs.Seats.{AreReferences};
ghost use Rattle.index_cutter.specs.Cuts.{chunks_of};
ghost use Rattle.sac_base.specs.Verdict.{folds};
ghost use Rattle.phase_team.specs.Endings.{IsCombined};
ghost use Rattle.phase_team.specs.Segments.{cells_from, Costs};
ghost use Rattle.phase_draws.specs.Crews.{HaveRoom};
ghost use Rattle.phase_draws.specs.Endings.{IsTallied};

use crate::phase::{LoopPhase, run_phase};
use crate::rooms::{Begun, blank_rows, no_parts, rooms_for, team_of};
use count_table::Tally;
use index_cutter::cut;
use phase_chunks::{PhaseCells, Share, with_neutral};
use phase_team::Gate;
use sac_base::{Base, Cell, Memory, Op, Stop};
use std::alloc::Global;
use std::thread::Threads;
use wl_core::Job;

// What a fold's workers begin with, and their rows.
#[derive(Drop)]
struct FoldRooms {
    begun: Begun,
    rows: Vec<Cell>,
}

fn fold_rooms(
    alloc: Global,
    workers: usize,
    chunks: usize,
    width: usize,
) -> Result<FoldRooms, Memory>
    requires some { 1 ≤ workers }
    requires few { (workers ≤ 64) × (chunks ≤ 4096) }
    ensures slots { IfOk result (λ r. r.begun.slots.items ≡ replicate chunks None) }
    ensures rooms { IfOk result (λ r. HaveRoom chunks workers r.begun.rooms) }
    ensures rows { IfOk result (λ r. length r.rows.items ≡ workers * (width + (width + width))) }
{
    let slots = no_parts(alloc, chunks)?;
    let rooms = rooms_for(alloc, workers, chunks)?;
    let begun = Begun { slots, rooms };
    Ok(FoldRooms {
        begun,
        rows: blank_rows(alloc, workers, width)?,
    })
}

/// Combines the cells of a phase that are held with a neutral value, by workers that draw its chunks. Each worker
/// combines its own cells, and their values are combined with the neutral one, which is taken once. The phase has this
/// count for each shared buffer while it runs.
///
/// `Ok` comes where no cell faults, and the value is that of the neutral one and the held cells combined in order, each of
/// which has as many elements as the neutral one. `Faulted` is the fault of the least position that faults. After any error
/// nothing is known of the value.
pub fn fold_phase<H: Send, C: PhaseCells<H>, G: Gate, R: Threads + Sync>(
    phase: LoopPhase<'_, C, G, R>,
    home: &mut H,
    counts: &mut [u64],
    tally: &mut Tally,
    base: Base,
    op: Op,
    value: &mut [Cell],
) -> Result<(), Stop>
    requires workers { phase.workers ≤ 64 }
    requires positions { (phase.positions ≤ 16777216) × (phase.positions ≡ C.positions phase.cells.now) }
    requires op { IsTrue (folds base op) }
    requires counts { AreReferences counts.old }
    requires shared { length counts.old ≡ C.shared phase.cells.now }
    requires home { C.open_home phase.cells.now home.old }
    requires width { length value.old ≡ C.width phase.cells.now }
    ensures combined { IsCombined op (cells_from (C.cell phase.entry.cells.now) 0 phase.entry.positions) value.old value.new result }
    ensures home { C.open_home phase.entry.cells.now home.new }
    ensures kept { let all = phase.entry.cells.now in
        IfOk result (λ _. Costs (C.cost all) 0 phase.entry.positions (C.kept all home.old) (C.kept all home.new)) }
    ensures counts { counts.new ≡ counts.old }
    ensures tally { let cutting = phase.entry.cutting in
        IsTallied (chunks_of cutting.workers cutting.chunk phase.entry.positions) tally.old tally.new result }
{
    let cutting = phase.cutting;
    let cuts = cut(phase.positions as u64, cutting.workers, cutting.chunk);
    let workers = team_of(phase.workers, cuts.count);
    let Ok(rooms) = fold_rooms(phase.alloc, workers, cuts.count as usize, value.len()) else {
        return Err(Stop::Memory);
    };
    let FoldRooms { begun, mut rows } = rooms;
    let rows = rows.as_mut_slice();
    let share = Share {
        job: Job::Fold(base, op),
        width: value.len(),
        positions: phase.positions,
        size: cuts.size as usize,
    };
    match run_phase(&phase, share, begun, rows, home, counts, tally) {
        Ok(end) => with_neutral(op, &end, rows, value),
        Err(_) => Err(Stop::Memory),
    }
}

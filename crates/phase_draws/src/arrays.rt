// Phases that store their cells.
ghost use Rattle.std.specs.Prelude.{◌≡◌, ◌≢◌, ℕ, ◌*◌, ◌<◌, ◌≤◌, [], None, Ok, Some, length, map, vec_len, vec_capacity, IfOk};
ghost use Rattle.std.specs.Thread.{IsSend, IsSync};
ghost use Rattle.index_cutter.specs.Cuts.{chunks_of};
ghost use Rattle.wl_core.specs.declared.setup.Job.TheVariants.{Write as Store};
ghost use Rattle.count_table.specs.Opening.{present};
ghost use Rattle.buffer_parts.specs.Spans.{KeepPlaces, joined};
ghost use Rattle.count_table.specs.Seats.{AreReferences};
ghost use Rattle.phase_team.specs.Endings.{IsArray};
ghost use Rattle.phase_team.specs.Segments.{cells_from, Costs};
ghost use Rattle.phase_chunks.specs.Seats.{Suits};
ghost use Rattle.phase_draws.specs.Crews.{HaveRoom};
ghost use Rattle.phase_draws.specs.Endings.{IsTallied};
ghost use Rattle.phase_draws.specs.Reports.{IsLent};

use crate::phase::{LoopPhase, run_phase};
use crate::rooms::{Begun, rooms_for, team_of};
use buffer_parts::Part;
use chunk_reports::Report;
use count_table::{Tally, Unopened};
use index_cutter::{cut, lend};
use phase_chunks::{ChunkPart, ChunkReport, PhaseCells, Share, TeamEnd, answer_of};
use phase_team::Gate;
use sac_base::{Cell, Memory, Stop};
use std::alloc::Global;
use std::thread::Threads;
use wl_core::Job;

/// What a phase goes by beside its cells: where contexts are handed back to, a count for each shared buffer, and the tally.
/// A phase that lends its buffer has them by value.
#[derive(Drop)]
pub struct PhaseBooks<H> {
    pub home: H,
    pub counts: Vec<u64>,
    pub tally: Tally,
}

// What is lent a phase's parts with, and what the phase answers.
pub(crate) struct ArrayRun<H> {
    pub(crate) books: PhaseBooks<H>,
    pub(crate) end: Result<(), Stop>,
}

// What an array's workers begin with, and room for its parts in slots.
fn array_rooms(alloc: Global, workers: usize, chunks: usize) -> Result<Begun, Memory>
    requires some { 1 ≤ workers }
    requires few { (workers ≤ 64) × (chunks ≤ 4096) }
    ensures slots { IfOk result (λ r. (r.slots.items ≡ []) × (chunks ≤ vec_capacity r.slots)) }
    ensures rooms { IfOk result (λ r. HaveRoom chunks workers r.rooms) }
{
    Ok(Begun {
        slots: Vec::with_capacity(alloc, chunks)?,
        rooms: rooms_for(alloc, workers, chunks)?,
    })
}

// Moves each part into a slot of its own. There is room, so nothing fails.
fn fill_slots(parts: &mut Vec<Part<Cell>>, slots: &mut Vec<ChunkPart>)
    requires empty { slots.old.items ≡ [] }
    requires room { vec_len parts.old ≤ vec_capacity slots.old }
    ensures slots { slots.new.items ≡ map Some parts.old.items }
    ensures parts { parts.new.items ≡ [] }
    ensures capacity { vec_capacity parts.new ≡ vec_capacity parts.old }
{
    for part in parts.drain(..) {
        slots.push_reserved(Some(part));
    }
}

// Takes the parts back out of the reports.
fn parts_back(reports: Vec<ChunkReport>, parts: &mut Vec<Part<Cell>>)
    requires empty { parts.old.items ≡ [] }
    requires room { vec_len reports ≤ vec_capacity parts.old }
    ensures { parts.new.items ≡ present (map (λ r. r.part) reports.items) }
{
    for report in reports {
        let Report {
            chunk: _,
            part,
            end: _,
        } = report;
        if let Some(part) = part {
            parts.push_reserved(part);
        }
    }
}

// Takes the parts back out of their slots.
fn empty_slots(slots: Vec<ChunkPart>, parts: &mut Vec<Part<Cell>>)
    requires empty { parts.old.items ≡ [] }
    requires room { vec_len slots ≤ vec_capacity parts.old }
    ensures { parts.new.items ≡ present slots.items }
{
    for slot in slots {
        if let Some(part) = slot {
            parts.push_reserved(part);
        }
    }
}

// Runs a phase whose chunks fill the parts that were lent, and gives them back.
fn run_parts<H: Send, C: PhaseCells<H>, G: Gate, R: Threads + Sync>(
    phase: &LoopPhase<'_, C, G, R>,
    share: Share,
    begun: Begun,
    parts: Vec<Part<Cell>>,
    run: ArrayRun<H>,
) -> (Vec<Part<Cell>>, ArrayRun<H>)
    requires suits { let all = phase.now.cells.now in
        Suits (C.cell all) (C.positions all) (C.width all) (C.shared all) (length run.books.counts.items) share }
    requires job { share.job ≡ Store }
    requires lent { IsLent share (length parts.items) parts.items }
    requires slots { (begun.slots.items ≡ []) × (length parts.items ≤ vec_capacity begun.slots) }
    requires rooms { (workers : ℕ) × (workers ≤ 64) × HaveRoom (length parts.items) workers begun.rooms }
    requires home { C.open_home phase.now.cells.now run.books.home }
    requires counts { AreReferences run.books.counts.items }
    ensures places { KeepPlaces parts.items result.0.items }
    ensures array { IsArray (cells_from (C.cell phase.now.cells.now) 0 share.positions) (joined result.0.items) result.1.end }
    ensures home { C.open_home phase.now.cells.now result.1.books.home }
    ensures kept { let all = phase.now.cells.now in
        IfOk result.1.end (λ _. Costs (C.cost all) 0 share.positions (C.kept all run.books.home) (C.kept all result.1.books.home)) }
    ensures counts { result.1.books.counts.items ≡ run.books.counts.items }
    ensures tally { IsTallied (length parts.items) run.books.tally result.1.books.tally result.1.end }
{
    let ArrayRun { books, end: _ } = run;
    let PhaseBooks {
        mut home,
        mut counts,
        mut tally,
    } = books;
    let Begun { mut slots, rooms } = begun;
    let mut parts = parts;
    fill_slots(&mut parts, &mut slots);
    let begun = Begun { slots, rooms };
    let ran = run_phase(
        phase,
        share,
        begun,
        &mut [],
        &mut home,
        &mut counts,
        &mut tally,
    );
    let end = match ran {
        Ok(team) => {
            let end = answer_of(&team);
            let TeamEnd { reports, held: _ } = team;
            parts_back(reports, &mut parts);
            end
        }
        Err(Unopened { parts: slots }) => {
            empty_slots(slots, &mut parts);
            Err(Stop::Memory)
        }
    };
    let books = PhaseBooks {
        home,
        counts,
        tally,
    };
    (parts, ArrayRun { books, end })
}

// What a buffer's parts are lent with: the phase whose cells are to fill them, how many workers it has, and its run.
struct LentRun<'a, H, C, G, R> {
    phase: LoopPhase<'a, C, G, R>,
    share: Share,
    workers: usize,
    run: ArrayRun<H>,
}

// Runs a phase whose chunks fill the parts that were lent, where there is room for its workers' reports.
fn run_lent<'a, H: Send, C: PhaseCells<H>, G: Gate, R: Threads + Sync>(
    parts: Vec<Part<Cell>>,
    lent: LentRun<'a, H, C, G, R>,
) -> (Vec<Part<Cell>>, LentRun<'a, H, C, G, R>)
    requires shared { IsSync R.row × IsSync C.row × IsSync G.row × IsSend H.row × IsSend C.Worker.row }
    requires suits { let all = lent.phase.cells.now in
        Suits (C.cell all) (C.positions all) (C.width all) (C.shared all) (length lent.run.books.counts.items) lent.share }
    requires job { lent.share.job ≡ Store }
    requires cut { IsLent lent.share (length parts.items) parts.items }
    requires workers { (1 ≤ lent.workers) × (lent.workers ≤ 64) }
    requires home { C.open_home lent.phase.cells.now lent.run.books.home }
    requires counts { AreReferences lent.run.books.counts.items }
    ensures places { KeepPlaces parts.items result.0.items }
    ensures array { IsArray (cells_from (C.cell lent.entry.phase.cells.now) 0 lent.entry.share.positions) (joined result.0.items) result.1.run.end }
    ensures home { C.open_home lent.entry.phase.cells.now result.1.run.books.home }
    ensures kept { let all = lent.entry.phase.cells.now in IfOk result.1.run.end (λ _. Costs (C.cost all) 0 lent.entry.share.positions
        (C.kept all lent.entry.run.books.home) (C.kept all result.1.run.books.home)) }
    ensures counts { result.1.run.books.counts.items ≡ lent.entry.run.books.counts.items }
    ensures tally { IsTallied (length parts.items) lent.entry.run.books.tally result.1.run.books.tally result.1.run.end }
{
    let LentRun {
        phase,
        share,
        workers,
        run,
    } = lent;
    let (parts, run) = match array_rooms(phase.alloc, workers, parts.len()) {
        Ok(begun) => run_parts(&phase, share, begun, parts, run),
        Err(Memory) => {
            let ArrayRun { books, end: _ } = run;
            let end = Err(Stop::Memory);
            (parts, ArrayRun { books, end })
        }
    };
    (
        parts,
        LentRun {
            phase,
            share,
            workers,
            run,
        },
    )
}

/// Computes the cells of a phase into the buffer, each at its place, by workers that draw its chunks. The phase has the
/// books' count for each shared buffer while it runs.
///
/// `Ok` comes where no cell faults, and the buffer has the elements of all cells in order. `Faulted` is the fault of the
/// least position that faults, whichever worker met its fault first. After `Memory` nothing is known of the buffer.
pub fn array_phase<H: Send, C: PhaseCells<H>, G: Gate, R: Threads + Sync>(
    phase: LoopPhase<'_, C, G, R>,
    books: PhaseBooks<H>,
    width: usize,
    buffer: &mut [Cell],
) -> (PhaseBooks<H>, Result<(), Stop>)
    requires workers { phase.workers ≤ 64 }
    requires positions { (phase.positions ≤ 16777216) × (phase.positions ≡ C.positions phase.cells.now) × (width ≡ C.width phase.cells.now) }
    requires held { (p : ℕ) → p < phase.positions → C.cell phase.cells.now p ≢ Ok None }
    requires counts { AreReferences books.counts.items }
    requires shared { length books.counts.items ≡ C.shared phase.cells.now }
    requires home { C.open_home phase.cells.now books.home }
    requires room { length buffer.old ≡ phase.positions * width }
    ensures array { IsArray (cells_from (C.cell phase.entry.cells.now) 0 phase.entry.positions) buffer.new result.1 }
    ensures home { C.open_home phase.entry.cells.now result.0.home }
    ensures kept { let all = phase.entry.cells.now in
        IfOk result.1 (λ _. Costs (C.cost all) 0 phase.entry.positions (C.kept all books.home) (C.kept all result.0.home)) }
    ensures counts { result.0.counts.items ≡ books.counts.items }
    ensures tally { let cutting = phase.entry.cutting in
        IsTallied (chunks_of cutting.workers cutting.chunk phase.entry.positions) books.tally result.0.tally result.1 }
{
    let cutting = phase.cutting;
    let cuts = cut(phase.positions as u64, cutting.workers, cutting.chunk);
    let share = Share {
        job: Job::Write,
        width,
        positions: phase.positions,
        size: cuts.size as usize,
    };
    let alloc = phase.alloc;
    let workers = team_of(phase.workers, cuts.count);
    let run = ArrayRun {
        books,
        end: Err(Stop::Memory),
    };
    let mut lent = LentRun {
        phase,
        share,
        workers,
        run,
    };
    // Where no memory is found for the list of parts, the run is as it was, and says so.
    let _ = lend(alloc, buffer, &cuts, width, &mut lent, run_lent);
    let LentRun {
        phase: _,
        share: _,
        workers: _,
        run,
    } = lent;
    let ArrayRun { books, end } = run;
    (books, end)
}

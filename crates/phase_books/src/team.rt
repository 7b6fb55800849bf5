//! The cells of a whole loop, computed by a team of workers.

ghost use Rattle.std.specs.Prelude.{◌≡◌, ◌≢◌, ℕ, ◌*◌, ◌<◌, ◌≤◌, IsTrue, None, Ok, length, IfOk, OnOk};
ghost use Rattle.buffer_heap.specs.Heaps.{at};
ghost use Rattle.count_table.specs.Seats.{AreReferences};
ghost use Rattle.phase_cells.specs.Idle.{IsLending, counter, raise};
ghost use Rattle.phase_draws.specs.Endings.{IsTallied};
ghost use Rattle.phase_team.specs.Endings.{IsArray};
ghost use Rattle.phase_team.specs.Segments.{Costs, cells_from, cost_from};
ghost use Rattle.phase_books.specs.Homes.{CombinesAll, ComputesAll, IsBooked, OrNoMemory, chunks_in, left_in, new_behind};
ghost use Rattle.sac_base.specs.Verdict.{folds};

use crate::results::Books;
use buffer_heap::Heap;
use code_nesting::Nesting;
use count_table::Tally;
use kept_kernels::LoopTable;
use phase_cells::{CellRuns, LentCells};
use phase_draws::{LoopPhase, PhaseBooks, array_phase, fold_phase};
use phase_team::Gate;
use run_store::lent_counts;
use sac_base::{Base, Cell, Op, Stop};
use std::alloc::Global;
use std::mem;
use std::thread::Threads;

/// How many workers a phase has, 1 to 64, where they run, and who is told of it.
#[derive(Drop)]
pub struct Workers<'a, 'c, G: Gate, R: Threads + Sync> {
    pub alloc: Global,
    pub rt: &'a R,
    pub gate: &'a G,
    pub workers: u32,
    /// Whether a size of chunks was given. All workers then share out each phase, however small.
    pub chunked: bool,
    /// How deep calls nest. A phase is run in order on this thread where a cell may nest too deep for a worker's stack.
    pub nesting: &'a Nesting,
    /// The kernels that are kept of the program's loops.
    pub kernels: &'a LoopTable<'c>,
}

/// Computes the cells of all positions, each at its place. The workers' heap goes on behind the one that lends, and the
/// phase's table is closed into the tally, after a fault too.
///
/// # Errors
///
/// `Faulted`: the fault of the least position that faults.
pub fn compute_array<C: CellRuns, G: Gate, R: Threads + Sync>(
    team: &Workers<'_, '_, G, R>,
    cells: &C,
    positions: usize,
    width: usize,
    into: &mut [Cell],
    books: &mut Books,
) -> Result<(), Stop>
    requires positions { (positions ≤ 16777216) × (positions ≡ C.positions cells.now) × (width ≡ C.width cells.now) }
    requires held { (p : ℕ) → p < positions → C.cell cells.now p ≢ Ok None }
    requires lending { IsLending (C.opens cells.now) (C.lends cells.now) }
    requires room { length into.old ≡ positions * width }
    requires home { books.old.home ≡ new_behind (C.lends cells.now) }
    ensures booked { IsBooked positions books.old books.new result }
    ensures computed { ComputesAll (cells_from (C.cell cells.now) 0 positions) (C.lends cells.now)
        (cost_from (C.takes cells.now) 0 positions) into.new (left_in books.new.home result) }
{
    let alloc = team.alloc;
    let lends = cells.heap();
    let Ok(counts) = lent_counts(alloc, lends) else {
        return Err(Stop::Memory);
    };
    let lent = LentCells { alloc, cells };
    let end = store_cells(team, &lent, counts, positions, width, into, books);
    let LentCells { alloc: _, cells: _ } = lent;
    match end {
        Ok(_) => emptied(&books.home),
        Err(stop) => Err(stop),
    }
}

// Computes the cells of all positions, each at its place, by a phase that has the workers' heap and the tally by value.
fn store_cells<C: CellRuns, G: Gate, R: Threads + Sync>(
    team: &Workers<'_, '_, G, R>,
    lent: &LentCells<'_, C>,
    counts: Vec<u64>,
    positions: usize,
    width: usize,
    into: &mut [Cell],
    books: &mut Books,
) -> Result<(), Stop>
    requires positions { (positions ≤ 16777216) × (positions ≡ C.positions lent.now.cells.now) × (width ≡ C.width lent.now.cells.now) }
    requires held { (p : ℕ) → p < positions → C.cell lent.now.cells.now p ≢ Ok None }
    requires lending { IsLending (C.opens lent.now.cells.now) (C.lends lent.now.cells.now) }
    requires counts { AreReferences counts.items }
    requires shared { length counts.items ≡ length (C.lends lent.now.cells.now).places }
    requires room { length into.old ≡ positions * width }
    ensures array { IsArray (cells_from (C.cell lent.now.cells.now) 0 positions) into.new result }
    ensures kept { IfOk result (λ _. Costs (λ kind p. raise (C.takes lent.now.cells.now p) kind) 0 positions
        (counter books.old.home) (counter books.new.home)) }
    ensures tally { IsTallied (chunks_in books.old.count positions) books.old.count.tally books.new.count.tally result }
    ensures begun { books.new.count.before ≡ books.old.count.before }
{
    let home = mem::replace(&mut books.home, Heap::new(lent.alloc));
    let tally = mem::replace(&mut books.count.tally, Tally::new());
    let phase_books = PhaseBooks {
        home,
        counts,
        tally,
    };
    let phase = LoopPhase {
        rt: team.rt,
        alloc: lent.alloc,
        cells: lent,
        gate: team.gate,
        cutting: books.count.cutting,
        workers: few(team.workers),
        positions,
    };
    let (after, end) = array_phase(phase, phase_books, width, into);
    let PhaseBooks {
        home,
        counts: _,
        tally,
    } = after;
    books.home = home;
    books.count.tally = tally;
    end
}

/// Combines the cells of all positions that are held with the neutral value, which is taken once. The workers' heap goes on
/// behind the one that lends, and the phase's table is closed into the tally, after a fault too.
///
/// # Errors
///
/// `Faulted`: the fault of the least position that faults.
pub fn compute_fold<C: CellRuns, G: Gate, R: Threads + Sync>(
    team: &Workers<'_, '_, G, R>,
    cells: &C,
    positions: usize,
    base: Base,
    op: Op,
    value: &mut [Cell],
    books: &mut Books,
) -> Result<(), Stop>
    requires positions { (positions ≤ 16777216) × (positions ≡ C.positions cells.now) }
    requires op { IsTrue (folds base op) }
    requires lending { IsLending (C.opens cells.now) (C.lends cells.now) }
    requires width { length value.old ≡ C.width cells.now }
    requires home { books.old.home ≡ new_behind (C.lends cells.now) }
    ensures booked { IsBooked positions books.old books.new result }
    ensures combined { CombinesAll op (cells_from (C.cell cells.now) 0 positions) (C.lends cells.now)
        (cost_from (C.takes cells.now) 0 positions) value.old value.new (left_in books.new.home result) }
{
    let alloc = team.alloc;
    let lends = cells.heap();
    let Ok(mut counts) = lent_counts(alloc, lends) else {
        return Err(Stop::Memory);
    };
    let lent = LentCells { alloc, cells };
    let phase = LoopPhase {
        rt: team.rt,
        alloc,
        cells: &lent,
        gate: team.gate,
        cutting: books.count.cutting,
        workers: few(team.workers),
        positions,
    };
    let end = fold_phase(
        phase,
        &mut books.home,
        &mut counts,
        &mut books.count.tally,
        base,
        op,
        value,
    );
    let LentCells { alloc: _, cells: _ } = lent;
    match end {
        Ok(_) => emptied(&books.home),
        Err(stop) => Err(stop),
    }
}

// As many workers as a phase may have.
fn few(workers: u32) -> u32
    ensures { (1 ≤ result) × (result ≤ 64) }
{
    workers.clamp(1, 64)
}

// A heap that workers have left. One with a buffer, of which there is none in well-counted code, counts as want of memory.
fn emptied(heap: &Heap) -> Result<(), Stop>
    ensures empty { OnOk result ((b : ℕ) → at heap.now b ≡ None) }
    ensures stop { OrNoMemory result }
{
    if heap.live() == 0 {
        Ok(())
    } else {
        Err(Stop::Memory)
    }
}

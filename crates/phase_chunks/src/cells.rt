// What the cells of a phase are, and how a worker computes them.
ghost use Rattle.std.specs.Prelude.{◌≡◌, ℕ, ◌+◌, ◌*◌, ◌<◌, ◌≤◌, length, IfOk, OnOk, Ok, Some};
ghost use Rattle.wl_core.specs.Machine.{CellValue};
ghost use Rattle.phase_chunks.specs.Seats.{IsFresh};
ghost use Rattle.phase_team.specs.Segments.{IsComputed, Same, Tells, row_at};

use crate::shares::ChunkPart;
use count_table::{Phase, WorkerSeat};
use phase_team::CellEnd;
use sac_base::{Cell, Memory};

/// The cells of one phase. Each worker computes them with a context of its own, and each context is handed back to the
/// caller's `H` once its worker is done.
///
/// A context counts things of several kinds, as the buffers that it took. The count of kind 0 is exact, and each other one is
/// modulo 2^64.
pub trait PhaseCells<H>: Sync {
    /// What one worker computes cells with.
    type Worker: Send;

    /// What the cell of each position comes to.
    ghost cell: { Self → ℕ → CellValue };

    /// How many positions there are, how many elements a cell has, and how many shared buffers there are.
    ghost positions: { Self → ℕ };

    ghost width: { Self → ℕ };

    ghost shared: { Self → ℕ };

    /// A context between two cells, and a home that contexts may be handed back to.
    ghost idle: { Self → Self.Worker → Type 0 };

    ghost open_home: { Self → H → Type 0 };

    /// How much a context or a home has counted of each kind, and how much more after the cell of a position.
    ghost spent: { Self → Self.Worker → ℕ → ℕ };

    ghost kept: { Self → H → ℕ → ℕ };

    ghost cost: { Self → ℕ → ℕ → ℕ };

    /// A new context, which has counted nothing, and which is to be handed back to this home.
    fn begin(&self, home: &H) -> Result<Self::Worker, Memory>
        requires home { open_home self.now home.now }
        ensures idle { IfOk result (λ w. idle self.now w) }
        ensures spent { IfOk result (λ w. (kind : ℕ) → spent self.now w kind ≡ 0) };

    /// Computes the cell of a position into the elements that are given. The seat keeps and releases shared buffers by the
    /// table. It may be taken out of its place meanwhile, and ends there as it began.
    fn cell(
        &self,
        worker: &mut Self::Worker,
        table: &Phase<ChunkPart>,
        seat: &mut Option<WorkerSeat<ChunkPart>>,
        position: usize,
        into: &mut [Cell],
    ) -> CellEnd
        requires idle { idle self.now worker.old }
        requires shared { table.now.buffers ≡ shared self.now }
        requires seat { IsFresh table.now seat.old }
        requires position { position < positions self.now }
        requires width { length into.old ≡ width self.now }
        ensures tells { Tells (cell self.now position) into.new result }
        ensures idle { idle self.now worker.new }
        ensures seat { seat.new ≡ seat.old }
        ensures spent { IsComputed result → (kind : ℕ)
            → Same kind (spent self.now worker.new kind) (spent self.now worker.old kind + cost self.now kind position) };

    /// Computes the cells of positions from one on, one after another into the front of the elements that are given, as far as
    /// that is cheaper than one by one. Each has a value and counts nothing. Answers how many it has computed, at most `count`:
    /// after 0 the next one is still to be computed by itself.
    fn stretch(
        &self,
        _worker: &mut Self::Worker,
        _start: usize,
        _count: usize,
        _rows: &mut [Cell],
    ) -> usize
        requires idle { idle self.now _worker.old }
        requires within { _start + _count ≤ positions self.now }
        requires room { length _rows.old ≡ _count * width self.now }
        ensures most { result ≤ _count }
        ensures tells { (j : ℕ) → j < result → cell self.now (_start + j) ≡ Ok (Some (row_at (width self.now) j _rows.new)) }
        ensures free { (j kind : ℕ) → j < result → cost self.now kind (_start + j) ≡ 0 }
        ensures idle { idle self.now _worker.new }
        ensures spent { (kind : ℕ) → spent self.now _worker.new kind ≡ spent self.now _worker.old kind }
    {
        0
    }

    /// Hands a context back.
    ///
    /// # Errors
    ///
    /// `Memory`: nothing is known of the counts.
    fn finish(&self, worker: Self::Worker, home: &mut H) -> Result<(), Memory>
        requires idle { idle self.now worker }
        requires home { open_home self.now home.old }
        ensures home { open_home self.now home.new }
        ensures kept { OnOk result ((kind : ℕ) → Same kind (kept self.now home.new kind) (kept self.now home.old kind + spent self.now worker kind)) };
}

// What the cells of a loop are, and how one is computed on a store.
ghost use Rattle.std.specs.Prelude.{◌≡◌, ℕ, ◌+◌, ◌*◌, ◌<◌, ◌≤◌, length, IfOk, IfSome, Ok, Some};
ghost use Rattle.buffer_heap.specs.Heaps.{HeapValue};
ghost use Rattle.phase_cells.specs.Idle.{IsLeft};
ghost use Rattle.counted_code.specs.Values.{Heap as MachineHeap};
ghost use Rattle.run_store.specs.Stands.{Stands, lender_of};
ghost use Rattle.wl_core.specs.Machine.{CellValue};
ghost use Rattle.phase_team.specs.Segments.{IsComputed, Tells, row_at};

use buffer_heap::Heap;
use phase_team::CellEnd;
use run_store::Store;
use sac_base::{Cell, Memory};

/// The cells of a loop, each of which is computed on a store that has the buffers of a heap that lends them.
pub trait CellRuns: Sync {
    /// What one worker has besides its store, as variables.
    type Scratch: Send + Drop;

    /// What the cell of each position comes to, and how many buffers it takes and gives back.
    ghost cell: { Self → ℕ → CellValue };

    ghost takes: { Self → ℕ → ℕ };

    /// How many positions there are, and how many elements a cell has.
    ghost positions: { Self → ℕ };

    ghost width: { Self → ℕ };

    /// The heap that lends.
    ghost lends: { Self → HeapValue };

    /// From which heaps of the machine a cell may be computed, and what a worker may have between two cells.
    ghost opens: { Self → MachineHeap → Type 0 };

    ghost ready: { Self → Self.Scratch → Type 0 };

    /// The heap that lends.
    fn heap(&self) -> &Heap
        ensures { result.now ≡ lends self.now };

    /// What a worker begins with.
    fn begin(&self) -> Result<Self::Scratch, Memory>
        ensures { IfOk result (λ scratch. ready self.now scratch) };

    /// Computes the cell of a position without a store into the elements that are given, if it can: such a cell takes no
    /// buffer. Else the cell is still to be computed.
    fn run_alone(
        &self,
        _scratch: &mut Self::Scratch,
        _position: usize,
        _into: &mut [Cell],
    ) -> Option<CellEnd>
        requires ready { ready self.now _scratch.old }
        requires position { _position < positions self.now }
        requires width { length _into.old ≡ width self.now }
        ensures tells { IfSome result (Tells (cell self.now _position) _into.new) }
        ensures takes { IfSome result (λ end. IsComputed end → takes self.now _position ≡ 0) }
        ensures ready { ready self.now _scratch.new }
    {
        None
    }

    /// Computes the cells of positions from one on without a store, one after another into the front of the elements that are
    /// given, as far as that is cheaper than one by one. Each has a value and takes no buffer. Answers how many it has computed.
    fn run_together(
        &self,
        _scratch: &mut Self::Scratch,
        _start: usize,
        _count: usize,
        _rows: &mut [Cell],
    ) -> usize
        requires ready { ready self.now _scratch.old }
        requires within { _start + _count ≤ positions self.now }
        requires room { length _rows.old ≡ _count * width self.now }
        ensures most { result ≤ _count }
        ensures tells { (j : ℕ) → j < result → cell self.now (_start + j) ≡ Ok (Some (row_at (width self.now) j _rows.new)) }
        ensures takes { (j : ℕ) → j < result → takes self.now (_start + j) ≡ 0 }
        ensures ready { ready self.now _scratch.new }
    {
        0
    }

    /// Computes the cell of a position into the elements that are given.
    fn run(
        &self,
        scratch: &mut Self::Scratch,
        store: &mut Store<'_>,
        position: usize,
        into: &mut [Cell],
    ) -> CellEnd
        requires ready { ready self.now scratch.old }
        requires position { position < positions self.now }
        requires width { length into.old ≡ width self.now }
        ensures tells { (k : MachineHeap) → Stands store.old k → opens self.now k → Tells (cell self.now position) into.new result }
        ensures left { (k : MachineHeap) → Stands store.old k → opens self.now k → IsComputed result
            → IsLeft (opens self.now) (lends self.now) (takes self.now position) k store.new }
        ensures ready { IsComputed result → ready self.now scratch.new }
        ensures lender { lender_of store.new ≡ lender_of store.old };
}

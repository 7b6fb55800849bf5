ghost use Rattle.std.specs.Prelude.{◌≡◌, ℕ, ◌%◌, ◌≤◌, pos, [], ◌∷◌, length, Some, Ok};
ghost use Rattle.phase_cells.specs.Idle.{IsAsLent};

use crate::{CellRuns, LentCells};
use buffer_heap::Heap;
use count_table::Tally;
use index_cutter::Cutting;
use phase_draws::{LoopPhase, PhaseBooks, array_phase};
use phase_team::{CellEnd, NoGate};
use run_store::Store;
use sac_base::{Cell, Memory, Stop};
use std::alloc::Global;
use std::test::Fail;
use std::thread::Threads;

// One element for each of ten positions, which is its number. Those below a limit are computed without a store.
#[derive(Drop)]
struct Numbers<'a> {
    lends: &'a Heap,
    alone: usize,
}

impl<'a> CellRuns for Numbers<'a> {
    type Scratch = u64;

    ghost cell = { λ s p. Ok (Some (pos (p % 1000) ∷ [])) };

    ghost takes = { λ s p. 0 };

    ghost positions = { λ s. 10 };

    ghost width = { λ s. 1 };

    ghost lends = { λ s. s.lends.now };

    ghost opens = { λ s k. IsAsLent s.lends.now k };

    ghost ready = { λ s scratch. Unit {0} };

    fn heap(&self) -> &Heap {
        self.lends
    }

    fn begin(&self) -> Result<u64, Memory> {
        Ok(0)
    }

    fn run_alone(&self, scratch: &mut u64, position: usize, into: &mut [Cell]) -> Option<CellEnd> {
        if position >= self.alone {
            return None;
        }
        *scratch = scratch.wrapping_add(1);
        into[0] = (position % 1000) as i32;
        Some(CellEnd::Value)
    }

    fn run(
        &self,
        scratch: &mut u64,
        _store: &mut Store<'_>,
        position: usize,
        into: &mut [Cell],
    ) -> CellEnd {
        *scratch = scratch.wrapping_add(1);
        into[0] = (position % 1000) as i32;
        CellEnd::Value
    }
}

// The phase of the ten positions, on a heap that lends no buffer, and the workers' heap after it.
fn numbered<R: Threads + Sync>(
    rt: &R,
    alloc: Global,
    lends: &Heap,
    alone: usize,
    workers: u32,
    buffer: &mut [Cell],
) -> (Heap, Result<(), Stop>)
    requires workers { (1 ≤ workers) × (workers ≤ 64) }
    requires lends { lends.now ≡ record { places = []; births = 0; taken = 0; given = 0; reused = 0 } }
    requires room { length buffer.old ≡ 10 }
{
    let numbers = Numbers { lends, alone };
    let cells = LentCells {
        alloc,
        cells: &numbers,
    };
    let books = PhaseBooks {
        home: Heap::behind(lends),
        counts: Vec::new(alloc),
        tally: Tally::new(),
    };
    let phase = LoopPhase {
        rt,
        alloc,
        cells: &cells,
        gate: &NoGate,
        cutting: Cutting::of(workers, Some(3)),
        workers,
        positions: 10,
    };
    let (books, end) = array_phase(phase, books, 1, buffer);
    let PhaseBooks {
        home,
        counts: _,
        tally: _,
    } = books;
    (home, end)
}

#[test]
fn cells_are_computed_on_lent_buffers(rt: HostRuntime) -> Result<(), Fail> {
    let lends = Heap::new(rt.alloc());
    for (workers, alone) in [(1, 0), (2, 3), (64, 6), (2, 10)] {
        let mut buffer = [7; 10];
        let (home, end) = numbered(&rt, rt.alloc(), &lends, alone, workers, &mut buffer);
        assert!(rt; end.is_ok());
        assert_eq!(rt; buffer, [0, 1, 2, 3, 4, 5, 6, 7, 8, 9]);
        assert_eq!(rt; (home.live(), home.births(), home.taken()), (0, 0, 0));
    }
    Ok(())
}

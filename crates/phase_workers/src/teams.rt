//! Kernels and teams of phases.

use phase_books::{Workers, steps_of};
use phase_kernels::{KernelCells, PhaseKernels};
use phase_team::Gate;
use std::thread::Threads;

/// The workers of a phase: the thread that met it alone where its cells take less time than the start of further threads, by the steps of strips where
/// each cell is computed by these, and else by those of the evaluator.
pub fn team_for<'b, 'c, G: Gate, R: Threads + Sync>(
    workers: &Workers<'b, 'c, G, R>,
    kernels: &PhaseKernels<'_>,
) -> Workers<'b, 'c, G, R> {
    let cells = kernels.cells();
    let count = cells.cells.plan.frame.count();
    match kernels.strip_steps() {
        Some(steps) => workers.of_strips(count, steps),
        None => workers.of_phase(count, cell_steps(cells)),
    }
}

// How many steps of the evaluator a cell takes at most.
fn cell_steps(cells: &KernelCells<'_>) -> u64 {
    steps_of(&cells.cells.source, cells.live, cells.cells.frames)
}

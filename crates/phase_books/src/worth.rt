//! Whether the cells of a phase are worth threads of their own.

use crate::team::Workers;
use core_ir::Var;
use counted_code::{CodeBlock, CodeGen, CodePart, CodeRight, CodeStep};
use phase_team::Gate;
use run_loops::CellSource;
use run_values::{Frames, RunValue};
use std::thread::Threads;

/// The most steps of a phase that is run by the thread that met it, where no size of chunks was given. Starting three threads takes as long as some
/// 800 steps of the evaluator (`docs/DECISIONS.md`).
const FEW: u64 = 1024;

/// How many elements of an array an operator computes while one step is made.
const ELEMENTS: u64 = 64;

/// The same of steps of strips, of which each takes a fraction of a nanosecond.
pub const FEW_IN_STRIPS: u64 = 524_288;

impl<'a, 'c, G: Gate, R: Threads + Sync> Workers<'a, 'c, G, R> {
    /// The workers of a phase of so many cells of so many steps of the evaluator: the thread that met it alone where they are few, and all where a size
    /// of chunks was given.
    pub fn of_phase(&self, cells: usize, steps: u64) -> Workers<'a, 'c, G, R> {
        self.where_more(cells, steps, FEW)
    }

    /// The same of cells that strips compute, in so many steps.
    pub fn of_strips(&self, cells: usize, steps: usize) -> Workers<'a, 'c, G, R> {
        self.where_more(cells, steps as u64, FEW_IN_STRIPS)
    }

    // All workers where there are more steps than so many, or chunks of a size that was given.
    fn where_more(&self, cells: usize, steps: u64, few: u64) -> Workers<'a, 'c, G, R> {
        let is_worth = self.chunked || (cells as u64).saturating_mul(steps) > few;
        Workers {
            alloc: self.alloc,
            rt: self.rt,
            gate: self.gate,
            workers: if is_worth { self.workers } else { 1 },
            chunked: self.chunked,
            nesting: self.nesting,
            kernels: self.kernels,
        }
    }
}

/// How many steps a cell of a source takes at most that reads these variables, and as many as there are numbers where it has
/// loops or calls.
pub fn steps_of(source: &CellSource<'_>, live: &[Var], frames: &Frames<'_>) -> u64 {
    let greatest = match source {
        CellSource::Generators(gens) => gens_steps(gens),
        CellSource::Parts(parts) => parts_steps(parts),
    };
    greatest.saturating_mul(operator_steps(live, frames))
}

fn gens_steps(gens: &[CodeGen]) -> u64 {
    let mut greatest = 0u64;
    for generator in gens {
        greatest = greatest.max(block_steps(&generator.body));
    }
    greatest
}

fn parts_steps(parts: &[CodePart]) -> u64 {
    let mut greatest = 0u64;
    for part in parts {
        greatest = greatest.max(block_steps(&part.body));
    }
    greatest
}

// How many steps an operator takes whose operands are no larger than the largest of these variables.
fn operator_steps(live: &[Var], frames: &Frames<'_>) -> u64 {
    let mut greatest = 0u64;
    for x in live {
        greatest = greatest.max(elements_of(frames.get(*x)));
    }
    greatest / ELEMENTS + 1
}

// How many elements the value of a variable has.
fn elements_of(value: RunValue) -> u64 {
    let mut elements = 1u64;
    for extent in value.extents().as_slice() {
        elements = elements.saturating_mul(u64::from(extent.unsigned_abs()));
    }
    elements
}

// How many steps a block makes at most.
#[cycle(steps)]
fn block_steps(block: &CodeBlock) -> u64 {
    let mut steps = 0u64;
    for step in &block.steps {
        steps = steps.saturating_add(step_steps(step));
    }
    steps
}

#[cycle(steps)]
fn step_steps(step: &CodeStep) -> u64 {
    match step {
        CodeStep::Bind(binding) => right_steps(&binding.right),
        CodeStep::Keep(_) | CodeStep::Release(_) => 0,
    }
}

#[cycle(steps)]
fn right_steps(right: &CodeRight) -> u64 {
    match right {
        CodeRight::If { yes, no, .. } => block_steps(yes).max(block_steps(no)).saturating_add(1),
        CodeRight::Loop { .. }
        | CodeRight::Call { .. }
        | CodeRight::With(_)
        | CodeRight::Parted(_) => u64::MAX,
        _ => 1,
    }
}

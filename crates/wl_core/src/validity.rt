ghost use Rattle.std.specs.Prelude.{◌≡◌, ◌↔◌, ℕ, ℤ, IsTrue, Some, slice_get};
ghost use Rattle.sac_base.specs.Arrays.{IsCell};
ghost use Rattle.sac_base.specs.declared.base.Base.{Base};
ghost use Rattle.sac_base.specs.Verdict;
ghost use Rattle.wl_core.specs.Machine.{CellFits, CountsFit, IsFold, IsSetup, OfBase, TakesBase};
ghost use Rattle.wl_core.specs.Reading.{setup_of, cell_of};

use crate::limits::MOST_WORKERS;
use crate::setup::value_width;
use crate::{CellResult, Job, Setup};
use sac_base::{Base, Cell, MOST_ELEMENTS, MOST_REFERENCES, Op};

/// Whether a phase may be opened with the setup: at least one cell makes a chunk, there are at most `MOST_ELEMENTS` positions and `MOST_WORKERS`
/// workers, the counts are from 1 to `MOST_REFERENCES`, all values have one length, only a fold has a cell that is not held, and its operation
/// and its values are of its base.
pub fn is_setup(setup: &Setup) -> bool
    ensures { IsTrue result ↔ IsSetup (setup_of setup.now) }
{
    let positions = setup.cells.len() as u64;
    if setup.cuts_size == 0 || positions > MOST_ELEMENTS || setup.workers > MOST_WORKERS {
        return false;
    }
    if !takes_base(setup.job) || !counts_fit(&setup.counts) {
        return false;
    }
    let width = value_width(setup);
    for cell in &setup.cells {
        if !cell_fits(setup.job, cell, width) {
            return false;
        }
    }
    true
}

fn takes_base(job: Job) -> bool
    ensures { IsTrue result ↔ TakesBase job }
{
    match job {
        Job::Write => true,
        Job::Fold(base, op) => folds(base, op),
    }
}

fn folds(base: Base, op: Op) -> bool
    ensures { result ≡ Verdict.folds base op }
{
    match base {
        Base::Int => matches!(op, Op::Add | Op::Mul | Op::Min | Op::Max),
        Base::Bool => matches!(op, Op::And | Op::Or),
    }
}

fn counts_fit(counts: &[u64]) -> bool
    ensures { IsTrue result ↔ CountsFit counts.now }
{
    for count in counts {
        if *count == 0 || *count > MOST_REFERENCES {
            return false;
        }
    }
    true
}

fn cell_fits(job: Job, cell: &CellResult, width: usize) -> bool
    ensures { IsTrue result ↔ CellFits job width (cell_of cell.now) }
{
    match cell {
        CellResult::Value(value) => value.len() == width && of_base(job, value),
        CellResult::Faults(_) => true,
        CellResult::NotHeld => is_fold(job),
    }
}

fn is_fold(job: Job) -> bool
    ensures { IsTrue result ↔ IsFold job }
{
    match job {
        Job::Write => false,
        Job::Fold(_, _) => true,
    }
}

fn of_base(job: Job, value: &[Cell]) -> bool
    ensures { IsTrue result ↔ OfBase job value.now }
{
    match job {
        Job::Write => true,
        Job::Fold(base, _) => are_cells(base, value),
    }
}

fn are_cells(base: Base, value: &[Cell]) -> bool
    ensures { IsTrue result ↔ ((k : ℕ) (z : ℤ) → slice_get value.now k ≡ Some z → IsCell base z) }
{
    for cell in value {
        if !is_cell(base, *cell) {
            return false;
        }
    }
    true
}

fn is_cell(base: Base, cell: Cell) -> bool
    ensures { IsTrue result ↔ IsCell base cell }
{
    match base {
        Base::Int => true,
        Base::Bool => cell == 0 || cell == 1,
    }
}

//! Operators of large arrays that stand outside of cells.

ghost use Rattle.std.specs.Prelude.{◌≡◌, length};
ghost use Rattle.lane_ops.specs.Lanes.{lane, IsEach};
ghost use Rattle.sac_base.specs.Verdict.{fold_op};

use phase_books::Workers;
use phase_team::Gate;
use sac_base::{Cell, Op};
use shared_strips::{shared_both, shared_right};
use std::thread::Threads;

/// Writes an operator's value at each pair of lanes of two strips, and 0 where it divides by zero, by as many threads as there are workers, where the
/// strips are long enough. All three strips have one length.
pub fn both_outside<G: Gate, R: Threads + Sync>(
    workers: &Workers<'_, '_, G, R>,
    op: Op,
    first: &[Cell],
    second: &[Cell],
    target: &mut [Cell],
)
    requires first { length first.now ≡ length target.old }
    requires second { length second.now ≡ length target.old }
    ensures { IsEach target.new (λ k. fold_op op (lane first.now k) (lane second.now k)) }
{
    shared_both(workers.rt, workers.workers, op, first, second, target);
}

/// The same of a strip and one number.
pub fn right_outside<G: Gate, R: Threads + Sync>(
    workers: &Workers<'_, '_, G, R>,
    op: Op,
    first: &[Cell],
    number: Cell,
    target: &mut [Cell],
)
    requires first { length first.now ≡ length target.old }
    ensures { IsEach target.new (λ k. fold_op op (lane first.now k) number) }
{
    shared_right(workers.rt, workers.workers, op, first, number, target);
}

//! Who computes operators on strips.

ghost use Rattle.std.specs.Prelude.{◌≡◌, length};
ghost use Rattle.lane_ops.specs.Lanes.{lane, IsEach};
ghost use Rattle.sac_base.specs.Verdict.{fold_op};

use lane_ops::{strip_both, strip_right};
use sac_base::{Cell, Op};

/// Who computes operators on strips, which may be long.
pub trait Strips {
    /// Writes an operator's value at each pair of lanes of two strips, and 0 where it divides by zero.
    /// All three strips have one length.
    fn both(&self, op: Op, first: &[Cell], second: &[Cell], target: &mut [Cell])
        requires first { length first.now ≡ length target.old }
        requires second { length second.now ≡ length target.old }
        ensures { IsEach target.new (λ k. fold_op op (lane first.now k) (lane second.now k)) };

    /// Writes an operator's value at each lane and one number, and 0 where it divides by zero.
    fn right(&self, op: Op, first: &[Cell], number: Cell, target: &mut [Cell])
        requires first { length first.now ≡ length target.old }
        ensures { IsEach target.new (λ k. fold_op op (lane first.now k) number) };
}

/// The thread that asks.
#[derive(Drop)]
pub struct Alone;

impl Strips for Alone {
    fn both(&self, op: Op, first: &[Cell], second: &[Cell], target: &mut [Cell]) {
        strip_both(op, first, second, target);
    }

    fn right(&self, op: Op, first: &[Cell], number: Cell, target: &mut [Cell]) {
        strip_right(op, first, number, target);
    }
}

//! Loops outside of cells and operators of large arrays, which may be run by others.

ghost use Rattle.counted_code.specs.Loops.{job_does};
ghost use Rattle.counted_code.specs.Values.{Heap as MachineHeap};
ghost use Rattle.lane_ops.specs.Lanes.{lane, IsEach};
ghost use Rattle.run_loops.specs.Jobs.{job_of, over_does, IsOver};
ghost use Rattle.run_loops.specs.Running.{IsAt, IsValue, SameScopes, Told};
ghost use Rattle.run_store.specs.Stands.{lender_of};
ghost use Rattle.run_values.specs.Scopes.{current};
ghost use Rattle.run_values.specs.Shown.{value_of};
ghost use Rattle.sac_base.specs.Verdict.{fold_op};
ghost use Rattle.std.specs.Prelude.{◌≡◌, None, OnOk, length, ⊤};

use crate::cell_loop::CellLoop;
use crate::state::{Context, State};
use lane_ops::{strip_both, strip_right};
use run_values::RunValue;
use sac_base::{Cell, Op, Stop};
use shared_strips::Strips;
use std::marker::Model;

/// Runs the loops over cells that stand outside of cells, and computes operators of large arrays there.
pub trait Phases {
    /// Whether it may be asked to.
    ghost runs: { Self → Type 0 };

    /// The result of a loop whose checks have passed.
    fn run(
        &self,
        work: &CellLoop<'_>,
        context: &Context<'_>,
        state: &mut State<'_, '_>,
    ) -> Result<RunValue, Stop>
        requires { runs self.now }
        ensures told { (m : MachineHeap) → IsAt state.old m
            → Told IsValue result state.new (job_does None (job_of context.now (current state.old.frames) m work.now) m) }
        ensures scopes { OnOk result (SameScopes state.old.frames state.new.frames) }
        ensures lender { lender_of state.new.heap ≡ lender_of state.old.heap };

    /// The result of an array of the cells alone, over that of a value which is the only reference to its buffer.
    fn run_over(
        &self,
        work: &CellLoop<'_>,
        array: RunValue,
        context: &Context<'_>,
        state: &mut State<'_, '_>,
    ) -> Result<RunValue, Stop>
        requires { runs self.now }
        ensures told { (m : MachineHeap) → IsAt state.old m → IsOver work.now (value_of array) m
            → Told IsValue result state.new (over_does context.now (current state.old.frames) work.now (value_of array) m) }
        ensures scopes { OnOk result (SameScopes state.old.frames state.new.frames) }
        ensures lender { lender_of state.new.heap ≡ lender_of state.old.heap };

    /// Writes an operator's value at each pair of lanes of two strips, and 0 where it divides by zero. All three strips have one length.
    fn both(&self, op: Op, first: &[Cell], second: &[Cell], target: &mut [Cell])
        requires runs { runs self.now }
        requires first { length first.now ≡ length target.old }
        requires second { length second.now ≡ length target.old }
        ensures { IsEach target.new (λ k. fold_op op (lane first.now k) (lane second.now k)) };

    /// Writes an operator's value at each lane and one number, and 0 where it divides by zero.
    fn right(&self, op: Op, first: &[Cell], number: Cell, target: &mut [Cell])
        requires runs { runs self.now }
        requires first { length first.now ≡ length target.old }
        ensures { IsEach target.new (λ k. fold_op op (lane first.now k) number) };
}

/// Runs none.
#[derive(Drop)]
pub struct Never;

impl Phases for Never {
    ghost runs = { λ n. ⊤ };

    fn run(
        &self,
        _work: &CellLoop<'_>,
        _context: &Context<'_>,
        _state: &mut State<'_, '_>,
    ) -> Result<RunValue, Stop> {
        Err(Stop::Memory)
    }

    fn run_over(
        &self,
        _work: &CellLoop<'_>,
        _array: RunValue,
        _context: &Context<'_>,
        _state: &mut State<'_, '_>,
    ) -> Result<RunValue, Stop> {
        Err(Stop::Memory)
    }

    fn both(&self, op: Op, first: &[Cell], second: &[Cell], target: &mut [Cell]) {
        strip_both(op, first, second, target);
    }

    fn right(&self, op: Op, first: &[Cell], number: Cell, target: &mut [Cell]) {
        strip_right(op, first, number, target);
    }
}

/// What runs loops outside of cells, and may be asked to.
#[derive(Drop)]
pub struct Outside<P: Phases> {
    phases: P,
}

impl<P: Phases> Model for Outside<P> {
    ghost Value = { P };

    ghost view = { λ o. o.phases };

    ghost invariant = { λ o. P.runs o.phases };
}

impl<P: Phases> Outside<P> {
    pub fn of(phases: P) -> Outside<P>
        requires { P.runs phases }
        ensures { result ≡ phases }
    {
        Outside { phases }
    }

    /// The result of a loop whose checks have passed.
    pub fn run(
        &self,
        work: &CellLoop<'_>,
        context: &Context<'_>,
        state: &mut State<'_, '_>,
    ) -> Result<RunValue, Stop>
        ensures told { (m : MachineHeap) → IsAt state.old m
            → Told IsValue result state.new (job_does None (job_of context.now (current state.old.frames) m work.now) m) }
        ensures scopes { OnOk result (SameScopes state.old.frames state.new.frames) }
        ensures lender { lender_of state.new.heap ≡ lender_of state.old.heap }
    {
        self.phases.run(work, context, state)
    }

    /// The result of an array of the cells alone, over that of a value which is the only reference to its buffer.
    pub fn run_over(
        &self,
        work: &CellLoop<'_>,
        array: RunValue,
        context: &Context<'_>,
        state: &mut State<'_, '_>,
    ) -> Result<RunValue, Stop>
        ensures told { (m : MachineHeap) → IsAt state.old m → IsOver work.now (value_of array) m
            → Told IsValue result state.new (over_does context.now (current state.old.frames) work.now (value_of array) m) }
        ensures scopes { OnOk result (SameScopes state.old.frames state.new.frames) }
        ensures lender { lender_of state.new.heap ≡ lender_of state.old.heap }
    {
        self.phases.run_over(work, array, context, state)
    }
}

impl<P: Phases> Strips for Outside<P> {
    fn both(&self, op: Op, first: &[Cell], second: &[Cell], target: &mut [Cell]) {
        self.phases.both(op, first, second, target);
    }

    fn right(&self, op: Op, first: &[Cell], number: Cell, target: &mut [Cell]) {
        self.phases.right(op, first, number, target);
    }
}

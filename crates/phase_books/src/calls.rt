//! Loops outside of cells and operators of large arrays, as calls run them.

ghost use Rattle.phase_books.specs.Calls.{IsRun, IsRunOver};
ghost use Rattle.lane_ops.specs.Lanes.{lane, IsEach};
ghost use Rattle.run_loops.specs.Jobs.{job_of};
ghost use Rattle.sac_base.specs.Verdict.{fold_op};
ghost use Rattle.std.specs.Prelude.{◌≡◌, length};

use run_loops::{CellLoop, Context, Phases, State};
use run_values::RunValue;
use sac_base::{Cell, Op, Stop};

/// Calls that run loops, the second one arrays over that of a marked variable, and calls that compute operators of two strips, and
/// of a strip and a number. Calls, and not methods, since a thread that a method starts may not rest on the type parameters of its `impl`.
#[derive(Drop)]
pub struct LoopCall<F, O, B, N> {
    pub run: F,
    pub over: O,
    pub both: B,
    pub right: N,
}

impl<F, O, B, N> Phases for LoopCall<F, O, B, N>
where
    F: Fn(&CellLoop<'_>, &Context<'_>, &mut State<'_, '_>) -> Result<RunValue, Stop>,
    O: Fn(&CellLoop<'_>, RunValue, &Context<'_>, &mut State<'_, '_>) -> Result<RunValue, Stop>,
    B: Fn(Op, &[Cell], &[Cell], &mut [Cell]),
    N: Fn(Op, &[Cell], Cell, &mut [Cell]),
{
    ghost runs = { λ c.
        F.IsAlwaysCallable c.run
        × ((work : _) (context : _) (s : _) (r : _) (t : _) → F.post c.run work context s r t → IsRun (λ e m. job_of context.now e m work.now) s.now r t.now)
        × O.IsAlwaysCallable c.over
        × ((work : _) (array : _) (context : _) (s : _) (r : _) (t : _) → O.post c.over work array context s r t
        → IsRunOver context.now work.now array s.now r t.now)
        × ((op : _) (first : _) (second : _) (s : _) → length first.now ≡ length s.now → length second.now ≡ length s.now
        → B.pre c.both op first second s)
        × ((op : _) (first : _) (second : _) (s : _) (r : _) (t : _) → B.post c.both op first second s r t
        → IsEach t.now (λ k. fold_op op (lane first.now k) (lane second.now k)))
        × ((op : _) (first : _) (number : _) (s : _) → length first.now ≡ length s.now → N.pre c.right op first number s)
        × ((op : _) (first : _) (number : _) (s : _) (r : _) (t : _) → N.post c.right op first number s r t
        → IsEach t.now (λ k. fold_op op (lane first.now k) number)) };

    fn run(
        &self,
        work: &CellLoop<'_>,
        context: &Context<'_>,
        state: &mut State<'_, '_>,
    ) -> Result<RunValue, Stop> {
        (self.run)(work, context, state)
    }

    fn run_over(
        &self,
        work: &CellLoop<'_>,
        array: RunValue,
        context: &Context<'_>,
        state: &mut State<'_, '_>,
    ) -> Result<RunValue, Stop> {
        (self.over)(work, array, context, state)
    }

    fn both(&self, op: Op, first: &[Cell], second: &[Cell], target: &mut [Cell]) {
        (self.both)(op, first, second, target)
    }

    fn right(&self, op: Op, first: &[Cell], number: Cell, target: &mut [Cell]) {
        (self.right)(op, first, number, target)
    }
}

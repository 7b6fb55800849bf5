//! Strips in parts, each by a thread of its own.

ghost use Rattle.std.specs.Prelude.{◌≡◌, ◌+◌, ◌<◌, ◌≤◌, length};
ghost use Rattle.lane_ops.specs.Lanes.{lane, IsEach};
ghost use Rattle.sac_base.specs.Verdict.{fold_op};

use lane_ops::{strip_both, strip_right};
use sac_base::{Cell, Op};
use std::thread::{Threads, for_each_chunk_mut};

/// The fewest lanes of a thread: fewer take less time than its start.
const FEWEST: usize = 131_072;

// How many lanes each thread has, where there are at most so many threads.
fn lanes_each(lanes: usize, threads: u32) -> usize
    ensures { 0 < result }
{
    lanes.div_ceil(threads.max(1) as usize).max(FEWEST)
}

/// Writes an operator's value at each pair of lanes of two strips, and 0 where it divides by zero, by at most so many threads, this one among them.
/// All three strips have one length. Where no thread can be made, this one computes its part.
pub fn shared_both<R: Threads + Sync>(
    rt: &R,
    threads: u32,
    op: Op,
    first: &[Cell],
    second: &[Cell],
    target: &mut [Cell],
)
    requires first { length first.now ≡ length target.old }
    requires second { length second.now ≡ length target.old }
    ensures { IsEach target.new (λ k. fold_op op (lane first.now k) (lane second.now k)) }
{
    let size = lanes_each(target.len(), threads);
    if size >= target.len() {
        strip_both(op, first, second, target);
    } else {
        for_each_chunk_mut(
            rt,
            target,
            size,
            &|start, part| part_of_both(op, first, second, start, part),
        );
    }
}

// The lanes of both strips from a place on.
fn part_of_both(op: Op, first: &[Cell], second: &[Cell], start: usize, part: &mut [Cell])
    requires first { start + length part.old ≤ length first.now }
    requires second { start + length part.old ≤ length second.now }
    ensures { IsEach part.new (λ k. fold_op op (lane first.now (start + k)) (lane second.now (start + k))) }
{
    let end = start + part.len();
    strip_both(op, &first[start..end], &second[start..end], part);
}

/// Writes an operator's value at each lane and one number, and 0 where it divides by zero, by at most so many threads, this one among them.
/// Where no thread can be made, this one computes its part.
pub fn shared_right<R: Threads + Sync>(
    rt: &R,
    threads: u32,
    op: Op,
    first: &[Cell],
    number: Cell,
    target: &mut [Cell],
)
    requires first { length first.now ≡ length target.old }
    ensures { IsEach target.new (λ k. fold_op op (lane first.now k) number) }
{
    let size = lanes_each(target.len(), threads);
    if size >= target.len() {
        strip_right(op, first, number, target);
    } else {
        for_each_chunk_mut(
            rt,
            target,
            size,
            &|start, part| part_of_right(op, first, number, start, part),
        );
    }
}

// The lanes of the strip from a place on.
fn part_of_right(op: Op, first: &[Cell], number: Cell, start: usize, part: &mut [Cell])
    requires first { start + length part.old ≤ length first.now }
    ensures { IsEach part.new (λ k. fold_op op (lane first.now (start + k)) number) }
{
    let end = start + part.len();
    strip_right(op, &first[start..end], number, part);
}

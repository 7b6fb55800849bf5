use crate::making::{TEN, line};
use loop_code::{Run, Runs, rows};
use sac_base::{Grid1, Memory};
use std::alloc::Global;

/// Two in each four of the first ten numbers, from `lo` on.
fn pairs(lo: i64) -> Grid1 {
    Grid1 {
        lo,
        hi: 10,
        step: 4,
        width: 2,
    }
}

/// The runs of two parts over ten numbers.
fn runs_of(alloc: Global, first: Grid1, second: Grid1) -> Result<Runs, Memory> {
    let frame = line(alloc, TEN)?;
    let parts = [line(alloc, first)?, line(alloc, second)?];
    rows(alloc, &frame, &parts)
}

fn run(from: u64, count: u64, part: u64) -> Run {
    Run { from, count, part }
}

#[test]
fn runs_are_as_long_as_one_part_has_the_positions(rt: HostRuntime) {
    let runs = runs_of(rt.alloc(), pairs(0), pairs(2)).expect(&rt, "memory");
    let wanted = [
        run(0, 2, 0),
        run(2, 2, 1),
        run(4, 2, 0),
        run(6, 2, 1),
        run(8, 2, 0),
    ];
    assert!(rt; runs.rows.as_slice() == wanted.as_slice());
}

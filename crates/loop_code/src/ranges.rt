//! The range that holds the indices of a row.

ghost use Rattle.std.specs.Prelude.{◌≤◌};
ghost use Rattle.loop_code.specs.Runs.{HoldsAlong};

use array_with_loops::Range;

/// The place of a range, or none, and how many indices along a row it holds.
#[derive(Drop, Clone, Copy)]
pub struct RangeRun {
    pub place: Option<usize>,
    pub count: usize,
}

/// Which range is the first that holds an index, or that none does, and for how many indices along the row, of at most so many, that is so.
pub fn run_at(ranges: &[Range], index: &[i32], most: usize) -> RangeRun
    requires { 1 ≤ most }
    ensures some { 1 ≤ result.count }
    ensures most { result.count ≤ most }
    ensures holds { HoldsAlong ranges.now index.now result.place result.count }
{
    let mut count = most;
    for place in 0..ranges.len() {
        let run = ranges[place].run_from(index, count);
        count = run.count;
        if run.held {
            // The bounds of a range that holds an index have 32 bits.
            let _ = ranges[place].axes();
            return RangeRun {
                place: Some(place),
                count,
            };
        }
    }
    RangeRun { place: None, count }
}

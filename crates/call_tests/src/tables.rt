ghost use Rattle.std.specs.Prelude.{◌≡◌, false, length};

use count_table::{Phase, Tally, WorkerSeat};
use sac_base::Memory;
use std::alloc::Global;
use std::thread::{self, Threads};

/// What two seats of a phase of two buffers and two chunks met.
#[derive(Drop, PartialEq)]
struct Met {
    parts: [u64; 2],
    nones: [Option<u64>; 2],
    sole: bool,
    counts: [u64; 2],
    closed: (u64, u64),
}

/// Each of two seats draws a chunk, takes its part and draws again, and one of them keeps a buffer for a while.
fn by_turns(alloc: Global) -> Option<Met> {
    let parts = Vec::from_array(alloc, [10, 20]).ok()?;
    let Ok((phase, mut frame)) = Phase::open_parts(alloc, &[1, 2], parts) else {
        return None;
    };
    let mut first = phase.seat(&mut frame);
    let mut second = phase.seat(&mut frame);
    let (Some(0), Some(1)) = (phase.draw(&mut first), phase.draw(&mut second)) else {
        return None;
    };
    let parts = [phase.take(&mut first), phase.take(&mut second)];
    let nones = [phase.draw(&mut first), phase.draw(&mut second)];
    phase.keep(&mut first, 0);
    let sole = phase.is_sole(&mut first, 0);
    phase.release(&mut first, 0);
    phase.leave(second, &mut frame);
    phase.leave(first, &mut frame);
    let mut counts = [0; 2];
    let mut tally = Tally::new();
    phase.close(frame, &mut counts, &mut tally);
    Some(Met {
        parts,
        nones,
        sole,
        counts,
        closed: (tally.phases(), tally.draws()),
    })
}

#[test]
fn two_seats_draw_two_parts(rt: HostRuntime) {
    let wanted = Met {
        parts: [10, 20],
        nones: [None; 2],
        sole: false,
        counts: [1, 2],
        closed: (1, 2),
    };
    assert!(rt; by_turns(rt.alloc()) == Some(wanted));
}

// How often the seat drew each of the two chunks until it drew None.
fn draw_until_none(phase: &Phase<()>, mut seat: WorkerSeat<()>) -> (WorkerSeat<()>, [u64; 2])
    requires phase { seat.phase ≡ phase.now }
    requires more { seat.ended ≡ false }
    requires chunks { length phase.now.parts ≡ 2 }
    ensures { (result.0.phase ≡ phase.now) × (result.0.holds ≡ seat.holds) }
{
    let mut times = [0u64; 2];
    for _turn in 0..3 {
        match phase.draw(&mut seat) {
            Some(chunk) => times[chunk as usize] = times[chunk as usize].wrapping_add(1),
            None => break,
        }
    }
    (seat, times)
}

/// How often each of two chunks was drawn by two threads together, the counts at the end, and the tally's phases and draws.
fn by_threads<R: Threads + Sync>(
    rt: &R,
    alloc: Global,
) -> Result<([u64; 2], [u64; 2], (u64, u64)), Memory> {
    let (phase, mut frame) = Phase::open(alloc, &[1, 2], 2)?;
    let first = phase.seat(&mut frame);
    let second = phase.seat(&mut frame);
    let (one, other) = thread::join(
        rt,
        || draw_until_none(&phase, first),
        || draw_until_none(&phase, second),
    );
    let (seat, one) = one;
    phase.leave(seat, &mut frame);
    let (seat, other) = other;
    phase.leave(seat, &mut frame);
    let mut counts = [0; 2];
    let mut tally = Tally::new();
    phase.close(frame, &mut counts, &mut tally);
    let times = [one[0].wrapping_add(other[0]), one[1].wrapping_add(other[1])];
    Ok((times, counts, (tally.phases(), tally.draws())))
}

#[test]
fn two_threads_draw_each_chunk_once(rt: HostRuntime) {
    let found = by_threads(&rt, rt.alloc());
    assert_eq!(rt; found, Ok(([1, 1], [1, 2], (1, 2))));
}

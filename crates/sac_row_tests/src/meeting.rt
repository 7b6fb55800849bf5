//! A gate at which two chunks of a phase meet.

use sac_top::Gate;
use std::sync::atomic::{AtomicU64, Ordering};
use std::thread;

/// The most turns for which a chunk waits for another one.
const MOST_TURNS: u64 = 100_000_000;

/// Holds each of the chunks 0 and 1 of a phase until the other one has begun too, and counts those that saw it begin. Where
/// chunks run one after another, the first of them waits in vain.
#[derive(Drop)]
pub struct Meeting {
    first: AtomicU64,
    second: AtomicU64,
    met: AtomicU64,
}

impl Meeting {
    pub fn new() -> Meeting {
        Meeting {
            first: AtomicU64::new(0),
            second: AtomicU64::new(0),
            met: AtomicU64::new(0),
        }
    }

    /// How many chunks saw the other one begin.
    pub fn met(&self) -> u64 {
        self.met.load(Ordering::SeqCst)
    }
}

impl Gate for Meeting {
    fn chunk_begins(&self, _worker: u32, chunk: u64) {
        let (mine, other) = if chunk == 0 {
            (&self.first, &self.second)
        } else {
            (&self.second, &self.first)
        };
        let begun = mine.fetch_add(1, Ordering::SeqCst);
        for _turn in 0..MOST_TURNS {
            if other.load(Ordering::SeqCst) > begun {
                self.met.fetch_add(1, Ordering::SeqCst);
                return;
            }
            thread::yield_now();
        }
    }
}

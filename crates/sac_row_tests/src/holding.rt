//! A gate at which one chunk of a phase waits for another one.

use sac_top::Gate;
use std::sync::atomic::{AtomicU64, Ordering};
use std::thread;

/// The most turns for which a chunk waits.
const MOST_TURNS: u64 = 100_000_000;

/// Holds one chunk until another one has begun, and counts how often it saw that one begin.
#[derive(Drop)]
pub struct Holding {
    held: u64,
    awaited: u64,
    begun: AtomicU64,
    seen: AtomicU64,
}

impl Holding {
    pub fn new(held: u64, awaited: u64) -> Holding {
        Holding {
            held,
            awaited,
            begun: AtomicU64::new(0),
            seen: AtomicU64::new(0),
        }
    }

    /// How often the chunk that waits saw the other one begin.
    pub fn seen(&self) -> u64 {
        self.seen.load(Ordering::SeqCst)
    }
}

impl Gate for Holding {
    fn chunk_begins(&self, _worker: u32, chunk: u64) {
        if chunk == self.awaited {
            self.begun.fetch_add(1, Ordering::SeqCst);
        }
        if chunk != self.held {
            return;
        }
        for _turn in 0..MOST_TURNS {
            if self.begun.load(Ordering::SeqCst) > 0 {
                self.seen.fetch_add(1, Ordering::SeqCst);
                return;
            }
            thread::yield_now();
        }
    }
}

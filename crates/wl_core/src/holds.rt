//! Numbers of holds in one buffer, so that a step takes no memory.

ghost use Rattle.std.specs.Prelude.{◌≡◌, ◌<◌, IfOk};
ghost use Rattle.wl_core.specs.Rows.{times_of, SetsTimes};

use sac_base::Memory;
use std::alloc::Global;
use std::marker::Model;

/// How often each worker holds each buffer.
#[derive(Debug, Drop)]
pub struct Holds {
    workers: usize,
    buffers: usize,
    numbers: Vec<u64>,
}

impl Model for Holds {
    ghost use Rattle.std.specs.Prelude.{◌≡◌, ◌*◌, length};
    ghost use Rattle.wl_core.specs.Rows.{HoldsValue};

    ghost Value = { HoldsValue };

    ghost view = { λ holds. record { workers = holds.workers; buffers = holds.buffers; numbers = holds.numbers.items } };

    ghost invariant = { λ holds. length holds.numbers.items ≡ holds.workers * holds.buffers };
}

impl Holds {
    pub fn new(alloc: Global, workers: usize, buffers: usize) -> Result<Holds, Memory>
        ensures { IfOk result (λ holds. (holds.workers ≡ workers) × (holds.buffers ≡ buffers) × (times_of holds ≡ (λ w b. 0))) }
    {
        let Some(len) = workers.checked_mul(buffers) else {
            return Err(Memory);
        };
        let numbers = vec![in alloc; 0; len]?;
        Ok(Holds {
            workers,
            buffers,
            numbers,
        })
    }

    pub fn times(&self, worker: usize, buffer: usize) -> u64
        requires worker { worker < self.now.workers }
        requires buffer { buffer < self.now.buffers }
        ensures { result ≡ times_of self.now worker buffer }
    {
        self.numbers[worker * self.buffers + buffer]
    }

    pub fn set(&mut self, worker: usize, buffer: usize, times: u64)
        requires worker { worker < self.old.workers }
        requires buffer { buffer < self.old.buffers }
        ensures { SetsTimes self.old self.new worker buffer times }
    {
        self.numbers[worker * self.buffers + buffer] = times;
    }
}

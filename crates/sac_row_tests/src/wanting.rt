//! Files for which no memory is found.
ghost use Rattle.std.specs.Prelude.{None};

use sac_io::{FetchError, Fetched, Files};

/// Files for which no memory is found. What they hold is not told.
#[derive(Drop)]
pub struct WantingFiles {
    calls: u64,
}

impl WantingFiles {
    pub fn new() -> WantingFiles {
        WantingFiles { calls: 0 }
    }
}

impl Files for WantingFiles {
    ghost files = { λ _. None };

    ghost faults = { λ _. 0 };

    ghost calls = { λ wanting. wanting.calls };

    fn fetch(
        &mut self,
        _name: &str,
        _limit: u64,
        _into: &mut Vec<u8>,
    ) -> Result<Fetched, FetchError> {
        self.calls = self.calls.wrapping_add(1);
        Err(FetchError::Memory)
    }
}

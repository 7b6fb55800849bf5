//! What a run leaves besides its results.

ghost use Rattle.std.specs.Prelude.{◌≡◌, None};

use count_table::Tally;
use counted_code::Code;

/// The code that ran and what its passes changed, and what the run cost, each number modulo 2^64.
#[derive(Drop)]
pub struct Trace {
    pub code: Option<Code>,
    /// The folded with-loops.
    pub folded: u64,
    /// The merged with-loops.
    pub scalarised: u64,
    /// The buffers taken.
    pub taken: u64,
    /// The buffers given back.
    pub given: u64,
    /// The marked loops that took over a buffer.
    pub reused: u64,
    /// The with-loops outside every cell that passed their checks and are folds or have a buffer as result.
    pub phases: u64,
    /// The phases of all runs, added up.
    pub tally: Tally,
}

impl Trace {
    /// No code, and all numbers 0.
    pub fn new() -> Trace
        ensures { result ≡ record {
          code = None;
          folded = 0;
          scalarised = 0;
          taken = 0;
          given = 0;
          reused = 0;
          phases = 0;
          tally = record { phases = 0; draws = 0 };
        } }
    {
        Trace {
            code: None,
            folded: 0,
            scalarised: 0,
            taken: 0,
            given: 0,
            reused: 0,
            phases: 0,
            tally: Tally::new(),
        }
    }
}

ghost use Rattle.std.specs.Prelude.{◌≡◌};

use crate::{Fault, FaultKind, Memory, Site};
use std::alloc::{AllocError, AllocFailed};

/// Why an evaluation ended without a value.
#[derive(Clone, Copy)]
pub enum Stop {
    Faulted(Fault),
    Memory,
}

impl From<Memory> for Stop {
    ghost use Rattle.std.specs.Prelude.{◌≡◌};
    ghost use Rattle.sac_base.specs.declared.stop.Stop.TheVariants.{Memory as NoMemory};

    ghost from_gives = { λ _ stop. stop ≡ NoMemory };

    fn from(_error: Memory) -> Stop {
        Stop::Memory
    }
}

impl From<AllocError> for Stop {
    ghost use Rattle.std.specs.Prelude.{◌≡◌};
    ghost use Rattle.sac_base.specs.declared.stop.Stop.TheVariants.{Memory as NoMemory};

    ghost from_gives = { λ _ stop. stop ≡ NoMemory };

    fn from(_error: AllocError) -> Stop {
        Stop::Memory
    }
}

impl<T: Drop> From<AllocFailed<T>> for Stop {
    ghost use Rattle.std.specs.Prelude.{◌≡◌};
    ghost use Rattle.sac_base.specs.declared.stop.Stop.TheVariants.{Memory as NoMemory};

    ghost from_gives = { λ _ stop. stop ≡ NoMemory };

    fn from(_error: AllocFailed<T>) -> Stop {
        Stop::Memory
    }
}

/// A fault at a place.
pub fn fault(kind: FaultKind, site: Site) -> Stop
    ensures { result ≡ Stop.Faulted (record { kind = kind; site = site }) }
{
    Stop::Faulted(Fault { kind, site })
}

ghost use Rattle.std.specs.Prelude.{◌≡◌};

use sac_base::Memory;
use std::alloc::{AllocError, AllocFailed};

/// Why there is no plan.
#[derive(Clone, Copy, Debug, PartialEq, Eq)]
pub enum Unplanned {
    /// The with-loop is not partable.
    NotPartable,
    /// No memory was found.
    Memory,
}

impl From<Memory> for Unplanned {
    ghost use Rattle.std.specs.Prelude.{◌≡◌};
    ghost use Rattle.partable_loops.specs.declared.refusal.Unplanned.TheVariants.{Memory as Wanting};

    ghost from_gives = { λ _ e. e ≡ Wanting };

    fn from(_error: Memory) -> Unplanned {
        Unplanned::Memory
    }
}

impl From<AllocError> for Unplanned {
    ghost use Rattle.std.specs.Prelude.{◌≡◌};
    ghost use Rattle.partable_loops.specs.declared.refusal.Unplanned.TheVariants.{Memory as Wanting};

    ghost from_gives = { λ _ e. e ≡ Wanting };

    fn from(_error: AllocError) -> Unplanned {
        Unplanned::Memory
    }
}

impl<T: Drop> From<AllocFailed<T>> for Unplanned {
    ghost use Rattle.std.specs.Prelude.{◌≡◌};
    ghost use Rattle.partable_loops.specs.declared.refusal.Unplanned.TheVariants.{Memory as Wanting};

    ghost from_gives = { λ _ e. e ≡ Wanting };

    fn from(_error: AllocFailed<T>) -> Unplanned {
        Unplanned::Memory
    }
}

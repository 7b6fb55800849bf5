ghost use Rattle.std.specs.Prelude.{◌≡◌};

use sac_base::Memory;
use std::alloc::{AllocError, AllocFailed};

/// Why there are no grids.
#[derive(Clone, Copy, Debug, PartialEq, Eq)]
pub enum GenError {
    /// The canonical count is above 64.
    TooMany,
    /// A period is above 4,096.
    TooFine,
    /// No memory was found.
    Memory,
}

impl From<Memory> for GenError {
    ghost use Rattle.std.specs.Prelude.{◌≡◌};
    ghost use Rattle.generator_sets.specs.declared.error.GenError.TheVariants.{Memory as Wanting};

    ghost from_gives = { λ _ e. e ≡ Wanting };

    fn from(_error: Memory) -> GenError {
        GenError::Memory
    }
}

impl From<AllocError> for GenError {
    ghost use Rattle.std.specs.Prelude.{◌≡◌};
    ghost use Rattle.generator_sets.specs.declared.error.GenError.TheVariants.{Memory as Wanting};

    ghost from_gives = { λ _ e. e ≡ Wanting };

    fn from(_error: AllocError) -> GenError {
        GenError::Memory
    }
}

impl<T: Drop> From<AllocFailed<T>> for GenError {
    ghost use Rattle.std.specs.Prelude.{◌≡◌};
    ghost use Rattle.generator_sets.specs.declared.error.GenError.TheVariants.{Memory as Wanting};

    ghost from_gives = { λ _ e. e ≡ Wanting };

    fn from(_error: AllocFailed<T>) -> GenError {
        GenError::Memory
    }
}

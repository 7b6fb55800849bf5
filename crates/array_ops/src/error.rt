use sac_base::{FaultKind, Memory};
use std::alloc::AllocError;

/// Why an operation gave no array.
#[derive(Clone, Copy, Debug, PartialEq, Eq)]
pub enum ArrayError {
    Faulted(FaultKind),
    Memory,
}

impl From<AllocError> for ArrayError {
    ghost use Rattle.std.specs.Prelude.{◌≡◌};
    ghost use Rattle.array_ops.specs.declared.error.ArrayError.TheVariants.{Memory as NoMemory};

    ghost from_gives = { λ _ error. error ≡ NoMemory };

    fn from(_error: AllocError) -> Self {
        ArrayError::Memory
    }
}

impl From<Memory> for ArrayError {
    ghost use Rattle.std.specs.Prelude.{◌≡◌};
    ghost use Rattle.array_ops.specs.declared.error.ArrayError.TheVariants.{Memory as NoMemory};

    ghost from_gives = { λ _ error. error ≡ NoMemory };

    fn from(_error: Memory) -> Self {
        ArrayError::Memory
    }
}

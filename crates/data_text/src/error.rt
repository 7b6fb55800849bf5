ghost use Rattle.std.specs.Prelude.{◌≡◌};
ghost use Rattle.data_text.specs.Codes.{data_code};

use sac_base::Memory;
use std::alloc::AllocFailed;
use thiserror::Error;

/// Why data are refused.
#[derive(Clone, Copy, Debug, PartialEq, Eq)]
pub enum DataCode {
    /// A line is not of the form of a line.
    I1,
    /// There are more or fewer lines than parameters.
    I2,
    /// An extent is above 2,147,483,647, or an element is not from -2,147,483,648 to 2,147,483,647.
    I3,
    /// There are more or fewer elements than the extents say.
    I4,
    /// The base is not the parameter's.
    I5,
    /// There are more than 8 extents, or more than 16,777,216 elements.
    I6,
}

impl DataCode {
    /// The code that stands for this refusal in the output.
    pub fn code(self) -> &'static str
        ensures { result.now ≡ data_code self }
    {
        match self {
            DataCode::I1 => "I1",
            DataCode::I2 => "I2",
            DataCode::I3 => "I3",
            DataCode::I4 => "I4",
            DataCode::I5 => "I5",
            DataCode::I6 => "I6",
        }
    }
}

/// Why there are no arrays.
#[derive(Clone, Copy, Debug, PartialEq, Eq, Error)]
pub enum DataError {
    /// The data are refused, at a line that counts from 1, or at 0 for the number of lines. Where arrays are generated,
    /// it is the number of the parameter, from 1.
    #[error("refused {0:?} at line {1}")]
    Refused(DataCode, u64),
    #[error("out of memory")]
    Memory,
}

impl From<Memory> for DataError {
    ghost use Rattle.std.specs.Prelude.{◌≡◌};
    ghost use Rattle.data_text.specs.declared.error.DataError.TheVariants.{Memory as OutOfMemory};

    ghost from_gives = { λ _ error. error ≡ OutOfMemory };

    fn from(_memory: Memory) -> Self {
        DataError::Memory
    }
}

impl<T: Drop> From<AllocFailed<T>> for DataError {
    ghost use Rattle.std.specs.Prelude.{◌≡◌};
    ghost use Rattle.data_text.specs.declared.error.DataError.TheVariants.{Memory as OutOfMemory};

    ghost from_gives = { λ _ error. error ≡ OutOfMemory };

    fn from(_failed: AllocFailed<T>) -> Self {
        DataError::Memory
    }
}

//! Why a phrase was not read.
ghost use Rattle.std.specs.Prelude.{◌≡◌};
ghost use Rattle.sac_phrases.specs.declared.halt.Halt.TheVariants.{Memory};

use sac_lex::Token;
use std::alloc::{AllocError, AllocFailed};

/// Why a phrase was not read, with the tokens that were left.
#[derive(Debug, Drop)]
pub enum Halt<'a> {
    /// No phrase goes on with the first of these tokens.
    Stuck(&'a [Token<'a>]),
    /// Each phrase that goes on with the first of these tokens is too high.
    High(&'a [Token<'a>]),
    /// No memory was left.
    Memory,
}

impl<'a> From<AllocError> for Halt<'a> {
    ghost from_gives = { λ _ e. e ≡ Memory };

    fn from(_error: AllocError) -> Self {
        Halt::Memory
    }
}

impl<'a, T: Drop> From<AllocFailed<T>> for Halt<'a> {
    ghost from_gives = { λ _ e. e ≡ Memory };

    fn from(_error: AllocFailed<T>) -> Self {
        Halt::Memory
    }
}

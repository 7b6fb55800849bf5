//! Tokens and refusals.
ghost use Rattle.std.specs.Prelude.{◌≡◌};
ghost use Rattle.sac_lex.specs.Codes.{lex_code};
ghost use Rattle.sac_lex.specs.Text.{IsTextOf, IsTextOf-prop};
ghost use Rattle.sac_lex.specs.declared.token.LexError.TheVariants.{Memory};

use sac_base::Site;
use std::alloc::{AllocError, AllocFailed};
use thiserror::Error;

/// What a token is.
#[derive(Clone, Copy, Debug, PartialEq, Eq)]
pub enum TokenKind {
    /// A letter or `_`, and letters, digits and `_`.
    Name,
    /// Decimal digits.
    Number,
    /// A reserved word.
    Word,
    /// An operator, a bracket or a separator.
    Sign,
    /// The end of the source.
    End,
}

/// A token of a source: the text is the slice of the source at the site.
#[derive(Clone, Copy, Debug)]
pub struct Token<'a> {
    pub kind: TokenKind,
    pub text: &'a [u8],
    pub site: Site,
    pub ghost spelled: { IsTextOf kind text.now } by { IsTextOf-prop kind text.now },
}

/// Why a source has no tokens.
#[derive(Clone, Copy, Debug, PartialEq, Eq)]
pub enum LexCode {
    /// A byte that starts no token.
    L1,
    /// A number above 2,147,483,647.
    L2,
    /// A name longer than 64 bytes.
    L3,
    /// The 200,001st token.
    L4,
    /// A comment without end.
    L5,
}

impl LexCode {
    /// The code that stands for this refusal in the output.
    pub fn code(self) -> &'static str
        ensures { result.now ≡ lex_code self }
    {
        match self {
            LexCode::L1 => "L1",
            LexCode::L2 => "L2",
            LexCode::L3 => "L3",
            LexCode::L4 => "L4",
            LexCode::L5 => "L5",
        }
    }
}

/// What stops the lexer: the first refusal in the source, or want of memory.
#[derive(Debug, Drop, Error)]
pub enum LexError {
    /// The first piece that is refused, and where it begins.
    #[error("refused {0:?} at {1:?}")]
    Refused(LexCode, Site),
    /// No memory was found.
    #[error("no memory was found")]
    Memory,
}

impl From<AllocError> for LexError {
    ghost from_gives = { λ _ e. e ≡ Memory };

    fn from(_error: AllocError) -> Self {
        LexError::Memory
    }
}

impl<T: Drop> From<AllocFailed<T>> for LexError {
    ghost from_gives = { λ _ e. e ≡ Memory };

    fn from(_error: AllocFailed<T>) -> Self {
        LexError::Memory
    }
}

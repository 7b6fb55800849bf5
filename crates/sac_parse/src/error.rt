//! Refusals of token lists.
ghost use Rattle.std.specs.Prelude.{◌≡◌};
ghost use Rattle.sac_parse.specs.Codes.{parse_code};

use sac_base::Site;
use thiserror::Error;

/// Why a token list has no tree.
#[derive(Clone, Copy, Debug, PartialEq, Eq)]
pub enum ParseCode {
    /// No program starts with the tokens up to the site.
    P1,
    /// Each program that starts with them is nested too deep.
    P2,
}

impl ParseCode {
    /// The code that stands for this refusal in the output.
    pub fn code(self) -> &'static str
        ensures { result.now ≡ parse_code self }
    {
        match self {
            ParseCode::P1 => "P1",
            ParseCode::P2 => "P2",
        }
    }
}

/// What stops the parser: a refusal at its site, or want of memory.
#[derive(Debug, Drop, Error)]
pub enum ParseError {
    /// The refusal, and the site of the token that it names.
    #[error("refused {0:?} at {1:?}")]
    Refused(ParseCode, Site),
    /// No memory was found.
    #[error("no memory was found")]
    Memory,
}

//! From a source to its program.
ghost use Rattle.std.specs.Prelude.{◌≡◌, ◌≤◌, length, IfOk, codes};
ghost use Rattle.sac_due.specs.Texts.{refused_at};
ghost use Rattle.sac_top.specs.Steps.{RefusedWith, IsJudged};

use crate::line::placed;
use sac_base::{Memory, Site};
use sac_lex::{LexError, lex};
use sac_parse::{ParseError, parse};
use std::alloc::Global;
use type_check::{CheckError, Checked, check};

/// What a source is.
#[derive(Drop)]
pub enum Judged {
    /// An accepted program.
    Accepted(Checked),
    /// Refused, with this line.
    Refused(Vec<u8>),
}

fn refusal(alloc: Global, code: &str, site: Site) -> Result<Judged, Memory>
    ensures { IfOk result (RefusedWith (refused_at code.now site)) }
{
    Ok(Judged::Refused(placed(alloc, "refused ", code, site)?))
}

/// The program of a source, or its refusal.
pub fn judge(alloc: Global, source: &[u8]) -> Result<Judged, Memory>
    requires { length source.now ≤ 1048576 }
    ensures { IfOk result (IsJudged source.now) }
{
    let tokens = match lex(alloc, source) {
        Ok(tokens) => tokens,
        Err(LexError::Refused(code, site)) => return refusal(alloc, code.code(), site),
        Err(LexError::Memory) => return Err(Memory),
    };
    let program = match parse(alloc, &tokens) {
        Ok(program) => program,
        Err(ParseError::Refused(code, site)) => return refusal(alloc, code.code(), site),
        Err(ParseError::Memory) => return Err(Memory),
    };
    match check(alloc, program) {
        Ok(checked) => Ok(Judged::Accepted(checked)),
        Err(CheckError::Refused(code, site)) => refusal(alloc, code.code(), site),
        Err(CheckError::Memory) => Err(Memory),
    }
}

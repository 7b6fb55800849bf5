//! The lines of refusals and faults.
ghost use Rattle.std.specs.Prelude.{◌≡◌, ◌≢◌, ◌++◌, IfOk, OnOk};
ghost use Rattle.sac_due.specs.Texts.{line, placed, refused_data};
ghost use Rattle.sac_top.specs.Steps.{ending};

use data_text::DataCode;
use itoa::Buffer;
use sac_base::{Memory, Site};
use sac_due::Status;
use std::alloc::Global;

/// A text to write, and the status when it was written.
#[derive(Drop)]
pub struct Answer {
    pub status: Status,
    pub text: Vec<u8>,
}

/// Appends a piece.
pub fn push(text: &mut Vec<u8>, piece: &str) -> Result<(), Memory>
    ensures { OnOk result (text.new.items ≡ text.old.items ++ piece.now) }
{
    text.extend_from_slice(piece.as_bytes())?;
    Ok(())
}

/// The text and a line feed.
pub fn line(alloc: Global, text: &str) -> Result<Vec<u8>, Memory>
    ensures { IfOk result (λ written. written.items ≡ line text.now) }
{
    let mut line = Vec::new(alloc);
    push(&mut line, text)?;
    push(&mut line, "\n")?;
    Ok(line)
}

/// A code and its place in the source, behind a word.
pub fn placed(alloc: Global, word: &str, code: &str, site: Site) -> Result<Vec<u8>, Memory>
    ensures { IfOk result (λ text. text.items ≡ placed word.now code.now site) }
{
    let mut line = Vec::new(alloc);
    push(&mut line, word)?;
    push(&mut line, code)?;
    push(&mut line, " at ")?;
    push(&mut line, Buffer::new().format(site.line))?;
    push(&mut line, ":")?;
    push(&mut line, Buffer::new().format(site.col))?;
    push(&mut line, "\n")?;
    Ok(line)
}

fn numbered(alloc: Global, code: DataCode, number: u64) -> Result<Vec<u8>, Memory>
    requires { code ≢ DataCode.I2 }
    ensures { IfOk result (λ text. text.items ≡ refused_data code number) }
{
    let mut line = Vec::new(alloc);
    push(&mut line, "refused ")?;
    push(&mut line, code.code())?;
    push(&mut line, " at line ")?;
    push(&mut line, Buffer::new().format(number))?;
    push(&mut line, "\n")?;
    Ok(line)
}

/// The refusal of an input.
pub fn refused_data(alloc: Global, code: DataCode, number: u64) -> Result<Vec<u8>, Memory>
    ensures { IfOk result (λ text. text.items ≡ refused_data code number) }
{
    if code == DataCode::I2 {
        line(alloc, "refused I2")
    } else {
        numbered(alloc, code, number)
    }
}

/// An answer of one line.
pub fn answer_line(alloc: Global, status: Status, text: &str) -> Result<Answer, Memory>
    ensures { IfOk result (λ answer. ending answer ≡ record { status = status; text = line text.now }) }
{
    let text = line(alloc, text)?;
    Ok(Answer { status, text })
}

//! Blocks of steps.

ghost use Rattle.std.specs.Prelude.{◌≡◌, nat_le};
ghost use Rattle.kernel_tree.specs.Terms.{Over};
ghost use Rattle.kernel_tree.specs.View.{kernel_term, part_then};
ghost use Rattle.own_kernels.specs.Steps.{is_own};

use crate::steps::is_own_line;
use kernel_tree::{KernelBlock, KernelPart};

/// Whether each step of a block leaves the registers of an index of so many components alone, and loads of the buffer the element
/// at the index alone.
#[cycle(own)]
pub fn is_own_block(block: &KernelBlock, rank: usize, buffer: u8) -> bool
    ensures { result ≡ is_own rank buffer (kernel_term block.now) }
{
    for part in &block.parts {
        if !is_own_part(part, rank, buffer) {
            return false;
        }
    }
    true
}

// The same of one part.
#[cycle(own)]
fn is_own_part(part: &KernelPart, rank: usize, buffer: u8) -> bool
    ensures { result ≡ is_own rank buffer (part_then part.now Over) }
{
    match part {
        KernelPart::Line(steps) => is_own_line(steps, rank, buffer),
        KernelPart::If { yes, no, .. } => {
            is_own_block(yes, rank, buffer) && is_own_block(no, rank, buffer)
        }
        KernelPart::Turns { test, body, .. } => {
            is_own_block(test, rank, buffer) && is_own_block(body, rank, buffer)
        }
        KernelPart::Each { index, body, .. } => {
            is_behind(*index, rank) && is_own_block(body, rank, buffer)
        }
        KernelPart::Between { index, body, .. } => {
            is_behind(*index, rank) && is_own_block(body, rank, buffer)
        }
    }
}

// Whether a register is none of an index of so many components.
fn is_behind(register: u8, rank: usize) -> bool
    ensures { result ≡ nat_le rank register }
{
    rank <= usize::from(register)
}

//! Copies of bodies with new variables.

ghost use Rattle.std.specs.Prelude.{◌≡◌, ◌+◌, IfOk, OnOk, length};
ghost use Rattle.core_subst.specs.copy.Mapped.{mapped};
ghost use Rattle.core_ir.specs.Binders.{bound_in as binders_of};
ghost use Rattle.core_ir.specs.View.{block_term};
ghost use Rattle.parted_bodies.specs.Numbering.{named, numbered};

use core_ir::{Block, Var};
use parted_bodies::{Names, Progress, bound_in, copy_block};
use sac_base::Memory;
use std::alloc::Global;

/// A copy of the body of a part. Another variable stands for the part's index, and new variables for those that the body binds.
///
/// # Errors
///
/// `Memory`: there is none for the copy, or the numbers of variables have more than 32 bits.
pub fn renamed(
    alloc: Global,
    body: &Block,
    index: Var,
    own: Var,
    progress: &mut Progress,
) -> Result<Block, Memory>
    ensures body { IfOk result (λ new. block_term new
        ≡ mapped (numbered (named (λ x. x) index own) (binders_of (block_term body.now)) progress.old.next) (block_term body.now)) }
    ensures next { OnOk result (progress.new
        ≡ record progress.old { next = progress.old.next + length (binders_of (block_term body.now)) }) }
{
    let mut names = Names::new(alloc);
    names.set(index, own)?;
    names.set_all(&bound_in(alloc, body)?, progress)?;
    let copy = copy_block(alloc, body, &names)?;
    Ok(copy)
}

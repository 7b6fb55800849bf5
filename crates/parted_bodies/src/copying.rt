//! Copies in which other variables stand for those of a block.

ghost use Rattle.std.specs.Prelude.{◌≡◌, IfOk};
ghost use Rattle.core_ir.specs.View.{block_term};
ghost use Rattle.core_subst.specs.copy.Mapped.{mapped};
ghost use Rattle.parted_bodies.specs.Numbering.{named_in};

use crate::names::Names;
use core_ir::{Block, Var};
use core_subst::copy::{Naming, copy_named};
use sac_base::Memory;
use std::alloc::Global;

impl Naming for Names {
    ghost named = { λ names. named_in names };

    fn name(&self, x: Var) -> Var {
        self.of(x)
    }
}

/// A copy of a block in which each variable, bound or free, is the one that stands for it.
///
/// # Errors
///
/// `Memory`: there is none for the copy.
pub fn copy_block(alloc: Global, block: &Block, names: &Names) -> Result<Block, Memory>
    ensures { IfOk result (λ b. block_term b ≡ mapped (named_in names.now) (block_term block.now)) }
{
    copy_named(alloc, block, names)
}

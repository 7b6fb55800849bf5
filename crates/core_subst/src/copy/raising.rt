//! Copies in which the number of each variable is greater by one number.

ghost use Rattle.std.specs.Prelude.{◌≡◌, ◌+◌, ◌≤◌, ◌^◌, IfOk, map};
ghost use Rattle.core_ir.specs.View.{block_term};
ghost use Rattle.core_ir.specs.Binders.{bound_in};
ghost use Rattle.core_subst.specs.Names.{above};
ghost use Rattle.core_subst.specs.copy.Mapped.{raised, raised_within, mapped, MeansRaised};

use crate::copy::naming::{Naming, copy_named};
use core_ir::{Block, Var};
use sac_base::Memory;
use std::alloc::Global;

/// A copy in which each variable, bound or free, has the number that is greater by `by`.
///
/// The numbers so raised are numbers of 32 bits. The copy means under an environment what the block means where each variable has the value of the raised one.
pub fn copy_raised(alloc: Global, block: &Block, by: u32) -> Result<Block, Memory>
    requires { above (block_term block.now) + by ≤ 2 ^ 32 }
    ensures term { IfOk result (λ b. block_term b ≡ mapped (raised by) (block_term block.now)) }
    ensures law { IfOk result (λ b. MeansRaised by (block_term block.now) (block_term b)) }
    ensures bound { IfOk result (λ b. bound_in (block_term b) ≡ map (raised by) (bound_in (block_term block.now))) }
{
    copy_named(alloc, block, &Raised { by })
}

/// Each variable has the number that is greater by `by`.
#[derive(Drop)]
struct Raised {
    by: u32,
}

impl Naming for Raised {
    ghost named = { λ raised. raised_within raised.by };

    fn name(&self, x: Var) -> Var {
        raise(x, self.by)
    }
}

/// The variable whose number is greater by `by`, or the same one where that number has more than 32 bits.
pub fn raise(var: Var, by: u32) -> Var
    ensures { result ≡ raised_within by var }
{
    match u32::try_from(u64::from(var.0) + u64::from(by)) {
        Ok(number) => Var(number),
        Err(_) => var,
    }
}

//! Kernels that read of one buffer the element at their own index alone.
#![tactic(auto)]

ghost use Rattle.own_kernels.specs.Statements.{OwnKernelsGiveTheSame, OwnKernelsReadOwn};

mod blocks;
mod kernels;
mod steps;

pub use kernels::{all_read_own, is_only_holder, parts_read_own, reads_own};

/// Law: a kernel that reads of a buffer its own element alone gives the same whatever other elements the buffer has; and where the kernels of a
/// loop's parts read of a variable's array their own elements alone, the loop's cells do.
pub fn own_kernels_read_own()
    ensures gives { OwnKernelsGiveTheSame }
    ensures cells { OwnKernelsReadOwn }
{}

//! The kernels of loops over cells, kept from one execution of a loop to the next.
#![tactic(auto)]

mod alike;
mod kernels;
mod loops;
mod one_loop;
mod table;

pub use kernels::source_kernels;
pub use one_loop::KeptKernels;
pub use table::LoopTable;

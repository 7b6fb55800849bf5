//! The cells of with-loops and of parted loops as kernels, where their blocks have some.
#![tactic(auto)]

mod cells;
mod lists;
mod lowering;
pub mod over_checks;
mod scope;
mod scratch;
mod shared;
mod worth;

pub use cells::KernelCells;
pub use lists::KernelList;
pub use lowering::lowering_of;
pub use scope::lent_scope;
pub use scratch::KernelScratch;
pub use shared::PhaseKernels;

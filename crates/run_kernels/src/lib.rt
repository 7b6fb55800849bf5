//! Loops over scalars and calls with scalars and short vectors as kernels, where the thread that runs a program meets them.
#![tactic(auto)]

mod calls;
mod fewer_levels;
mod groups;
mod levels;
mod linear;
mod mentions;
mod passing;
mod reading;
mod recursion;
mod run;
mod scope;
mod values;

pub use calls::{CallKernel, call_values};
pub use fewer_levels::fewer_levels_end_alike;
pub use groups::PlainGroups;
pub use levels::CallLevels;
pub use run::loop_values;
pub use scope::{ReadsBuffers, Scope, scope_of};

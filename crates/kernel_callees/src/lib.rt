//! The functions that kernels' calls take, and how far calls go.
#![tactic(auto)]

mod callees;
mod instance;

pub use callees::{Callees, Lowering};
pub use instance::{are_in, instance_of};

//! Which values of the evaluator a type contains, and which function a call takes.
#![tactic(auto)]

mod calls;
mod values;

pub use calls::{all_fit, choose};
pub use values::{all_have, shape_of, value_has};

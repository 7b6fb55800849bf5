//! What a source becomes as a core, and that it keeps its outcome: the definitions and laws on which the lowering stands.
#![tactic(auto)]

pub mod acceptance;
mod laws;
pub mod steps;

pub use laws::{
    lowered_core, lowered_functions, lowered_instances, lowered_outcome, lowered_scopes,
};

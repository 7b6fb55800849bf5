//! Instances of functions for known shapes of arguments.
#![tactic(auto)]

mod building;
pub mod groups;
mod order;
mod pass;
mod plan;
mod serve;
mod tables;
mod work;

pub use pass::specialise;

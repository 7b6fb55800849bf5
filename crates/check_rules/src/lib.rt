//! The rules of acceptance on single phrases: the names that are bound, the functions by name, calls, instances that clash, and the earliest of some
//! violations. `type_check` walks whole programs with them.
#![tactic(auto)]

pub mod bound;
pub mod calls;
pub mod clashes;
pub mod code;
pub mod functions;
pub mod judged;
pub mod listing;
pub mod names;
pub mod targets;
pub mod uses;
pub mod violation;

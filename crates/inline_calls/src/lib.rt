//! Inlining: calls of inline functions become the bodies of these.
#![tactic(auto)]

mod call;
mod functions;
mod place;
mod sizes;
mod walk;

pub use functions::inline_all;
pub use place::inlined_bindings;

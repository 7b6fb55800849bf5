//! Free and new variables of the core, and substitution.
#![tactic(auto)]

pub mod copy;
mod greatest;
mod replace;
mod unbound;

pub use greatest::fresh;
pub use replace::substitute;
pub use unbound::free;

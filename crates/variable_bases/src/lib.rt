//! The bases of a function's variables, in a table by their numbers.
#![tactic(auto)]

mod learn;
mod signatures;
mod table;

pub use signatures::Signatures;
pub use table::BaseTable;

//! What is known of the variables of a core, in a table that the end of a block takes back.
#![tactic(auto)]

mod known;
pub mod scoped_table;
pub mod shapes;
mod table;

pub use known::Known;
pub use table::FactTable;

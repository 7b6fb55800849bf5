//! What variables are beside the index of the part around them: a table that the end of a block takes back, and what right sides tell.
#![tactic(auto)]

mod numbers;
mod relation;
mod relations;
mod table;

pub use relation::Relation;
pub use relations::{learn_relation, relation_of};
pub use table::IndexTable;

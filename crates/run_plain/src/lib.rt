//! Right sides without blocks and calls: operators, literals, selections and the like, on values in a heap.
#![tactic(auto)]

mod arrays;
mod mirror;
mod operators;
mod right;
mod scalars;
mod together;

pub use arrays::{read_all, replace_value, reshape_value};
pub use operators::{binary_value, literal_value, unary_value};
pub use right::plain_value;
pub use scalars::scalar_value;

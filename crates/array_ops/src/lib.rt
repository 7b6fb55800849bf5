//! The operations of the language on arrays: operators element by element, literals, parts of arrays, and what a condition says.
#![tactic(auto)]

mod elements;
mod error;
mod literals;
mod operations;
mod parts;

pub use elements::{binary, unary};
pub use error::ArrayError;
pub use literals::literal;
pub use operations::{
    binary_at, condition_at, copy_all, literal_at, placed, results_of, select_at, unary_of,
};
pub use parts::{condition, dim, replace, reshape, select, shape_vector};

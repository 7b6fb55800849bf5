//! What an evaluator of counted code holds: values as words, short vectors and references to buffers, and the variables of all calls in one stack.
#![tactic(auto)]

mod few;
mod frames;
mod operators;
mod value;

pub use few::Few;
pub use frames::Frames;
pub use operators::{short_binary, short_unary};
pub use value::{RunValue, Word, small_value};

//! Data text: arrays as lines of text, both ways, and generated arrays.
//!
//! A line is a base, `[`, the extents with commas between them, `]`, `:` and the elements in row-major order.

#![tactic(auto)]

mod error;
mod fill;
mod law;
mod line;
mod number;
mod print;
mod row;
mod text;
mod token;

pub use error::{DataCode, DataError};
pub use fill::generate;
pub use law::{printed_is_read, read_is_spelled};
pub use print::{print_array, print_summary};
pub use text::read_arrays;

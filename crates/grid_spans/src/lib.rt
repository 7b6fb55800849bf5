//! The least and the greatest member of a grid on one axis.
#![tactic(auto)]

pub mod moved;
mod span;

pub use span::{Span, span_of};

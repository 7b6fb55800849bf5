//! What a function uses, in order, and where each variable is used last before a place.

mod list;

pub use list::{Entry, Uses};

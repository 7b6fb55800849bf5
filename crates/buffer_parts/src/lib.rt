//! A buffer that is cut into parts with owners of their own, and joined again, without a copy.

#![tactic(auto)]

mod cuts;
mod lends;
mod part;
mod raw;
mod slices;

pub use cuts::{cut, join_all};
pub use lends::lend;
pub use part::{Part, PartWriter};

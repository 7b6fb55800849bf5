//! Copies of blocks with other variables.

mod naming;
mod raising;

pub use naming::{Naming, copy_named};
pub use raising::{copy_raised, raise};

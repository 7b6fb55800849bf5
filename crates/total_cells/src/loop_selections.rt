//! Where the body of a part selects from a parted loop, beside the part's index.

mod laws;
mod plain;
mod walk;

pub use laws::selecting;
pub use walk::{Sought, selections};

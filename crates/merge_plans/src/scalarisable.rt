//! What makes a loop and the loops in its cells one: the bindings around an inner loop.

mod around;
mod laws;

pub use around::{are_passed, none_use};
pub use laws::around_decided;

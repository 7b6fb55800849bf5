//! Whether a term of the core uses a variable, and how many variables it binds.
#![tactic(auto)]

mod avoid;
mod count;
mod laws;

pub use avoid::{avoids, avoids_all, avoids_right};
pub use count::binders;
pub use laws::avoided;

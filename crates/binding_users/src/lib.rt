//! The one binding of a block that uses a variable.
#![tactic(auto)]

mod collect;
mod scan;
mod users;

pub use users::Users;

//! What is known of variables at a place of counted code, and the array that a parted loop may take over there.
#![tactic(auto)]

mod bases;
mod calls;
mod candidate;
mod cells;
mod copies;
mod heads;
mod own;
mod plain;
pub mod rules;
mod scope;

pub use bases::{BaseTable, bases_at, either_bases, loop_base, plain_base};
pub use calls::{CalledBases, Calls, calls_of};
pub use candidate::choose;
pub use copies::{copy_plain, copy_vars, core_right};
pub use own::own_parts;
pub use plain::plain_known;
pub use scope::{Scope, ScopeMark, Values};

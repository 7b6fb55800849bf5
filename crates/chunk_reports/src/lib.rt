//! What workers report of the chunks that they drew, in the order of the chunks.
#![tactic(auto)]

mod law;
mod reports;

pub use law::totals_in_any_order;
pub use reports::{Report, first_stop, put_in_order};

//! Whether a pair of parted loops can be folded into one, and the plan of the fold.
#![tactic(auto)]

mod laws;
mod offsets;
mod plan;
mod producer;
mod room;

pub use laws::plans_of_pairs;
pub use plan::{PartPlan, fold_plan};
pub use producer::{Producer, can_produce};

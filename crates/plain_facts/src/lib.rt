//! What is known of right sides without blocks and calls, of parameters, of the results of calls, and where a block begins.
#![tactic(auto)]

mod called;
mod frame;
pub mod known_rights;
mod lists;
mod literals;
mod notes;
mod right;
mod rows;

pub use called::CalledShapes;
pub use frame::parted_shape;
pub use lists::{common_facts, learn_all, learn_params};
pub use notes::{forget, forget_index, known_of, learn_index};
pub use right::plain_fact;

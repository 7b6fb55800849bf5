//! What a program means: arrays, or the first fault with its site; and the steps of a plain evaluation besides running a body.
#![tactic(auto)]

mod arrays;
mod calls;
mod defaults;
mod environment;
mod rows;

pub use arrays::{built_in_at, replace_at, value_of};
pub use calls::{
    all_fit, assign_all, assign_one, bind_index, bind_params, choose_instance, first_result_of,
};
pub use defaults::default_or_zero;
pub use environment::{Environment, assign, lookup};
pub use rows::worked_programs;

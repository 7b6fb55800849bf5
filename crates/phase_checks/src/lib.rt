//! A test at run time whether the cells of a loop are well counted.
#![tactic(auto)]

mod bags;
mod groups;
mod reads;
mod walk;

pub use walk::{gens_are_counted, parts_are_counted};

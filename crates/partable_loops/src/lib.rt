//! Whether a with-loop can become a parted loop, and the plan of that loop: its frame, the shape of a cell, and the grids of its parts.
#![tactic(auto)]

mod cuts;
mod framing;
mod grids;
mod literals;
mod planning;
mod refusal;
mod room;

pub use planning::{PartPlan, part_plan};

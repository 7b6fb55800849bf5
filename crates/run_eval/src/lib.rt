//! The evaluator of counted code: it runs a program on a heap of buffers with counted references.
#![tactic(auto)]

mod array_loops;
mod blocks;
mod in_order;
mod marked_loops;
mod plain;
mod program;
mod trace;
mod updates;

pub use in_order::{body_in_order, cell_in_order, run_in_order, run_over_in_order};
pub use program::{Plan, run, run_with_phases};
pub use sac_base::Stop;
pub use trace::Trace;

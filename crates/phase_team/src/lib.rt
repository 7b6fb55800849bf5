//! What the workers of a phase make of its cells: the end of one cell, who is told of the chunks that begin, the cells of positions that follow
//! one another, and laws that tie these to the machine of a parallel phase.
#![tactic(auto)]

mod cells;
mod gates;
mod law;

pub use cells::CellEnd;
pub use gates::{Gate, NoGate};
pub use law::{answers_are_verdicts, each_schedule_is_a_run};

//! What all phases share: how they begin and end, the team that computes their cells, and which of them are worth one.
#![tactic(auto)]

mod alive;
mod calls;
mod mentions;
mod over;
mod results;
mod room;
mod team;
mod worth;

pub use alive::{alive_in, is_alive};
pub use calls::LoopCall;
pub use code_nesting::Nesting;
pub use over::settle_over;
pub use phase_team::{Gate, NoGate};
pub use results::{Begun, Books, begin_phase, end_phase, finish_phase, open_books, stop_phase};
pub use room::has_room_for;
pub use team::{Workers, compute_array, compute_fold};
pub use worth::{FEW_IN_STRIPS, steps_of};

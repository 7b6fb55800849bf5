//! One with-loop's cells, computed by 1 to 64 workers that draw their chunks.
//!
//! The positions are cut into chunks, and each worker, in a thread of its own, draws one chunk after another from the
//! phase's table until none is left. Each worker has a context and a seat of its own. Whatever the schedule, the answer is
//! that of the cells taken one after another.
#![tactic(auto)]

mod arrays;
mod crew;
mod draws;
mod folds;
mod members;
mod phase;
mod rooms;
mod settles;
mod turns;

pub use arrays::{PhaseBooks, array_phase};
pub use folds::fold_phase;
pub use phase::LoopPhase;
pub use phase_chunks::{ChunkPart, PhaseCells};

//! The cells of one chunk, computed by one worker of a phase, and what the chunks of a phase come to together.
#![tactic(auto)]

mod cells;
mod combine;
mod ends;
mod gather;
mod shares;
mod work;
mod worker;

pub use cells::PhaseCells;
pub use combine::combine_held;
pub use ends::{TeamEnd, answer_of, with_neutral};
pub use shares::{ChunkPart, ChunkReport, Share, Stretch, stretch_of};
pub use work::{CellWork, CellWorker};
pub use worker::run_chunk;

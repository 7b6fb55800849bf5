//! The machine of a parallel phase, for every order of its events.
//!
//! A with-loop's positions are cut into chunks. A worker draws a chunk, writes its cells in order, and keeps and releases buffers on the way.
//! Whatever the order in which the workers' events come, a phase that is finished has the verdict of the cells taken one after another.
#![tactic(auto)]

mod ending;
mod events;
mod holds;
mod laws;
mod limits;
mod partials;
mod rows;
mod setup;
mod state;
mod validity;

pub use ending::{Verdict, finished, outcome};
pub use events::{Event, Refused, step};
pub use laws::{
    each_event_has_one_answer, events_keep_facts, every_order_gives_one_verdict,
    fold_operations_combine_in_any_order, partial_values_combine_to_all,
};
pub use limits::{MOST_CHUNKS, MOST_HOLDS, MOST_WORKERS};
pub use setup::{CellResult, Job, Setup};
pub use state::{State, open_state};
pub use validity::is_setup;

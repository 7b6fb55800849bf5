//! What is due: the status and the text of a run, by the words and by what stands under the names of the source and of the input.
#![tactic(auto)]

mod laws;
mod status;

pub use laws::one_due;
pub use status::Status;

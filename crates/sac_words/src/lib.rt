//! The words of the command line, read by a simple command.
#![tactic(auto)]

mod number;
mod options;
mod read;

pub use options::{Input, Mode, Options, WordsError};
pub use read::read_words;

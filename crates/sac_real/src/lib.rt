//! The machine's files and standard output, as the traits of files and of a sink. What they hold is not told.
#![tactic(auto)]

mod disk;
mod out;

pub use disk::DiskFiles;
pub use out::Out;

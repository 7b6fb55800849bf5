//! Laws of programs that are read from a source: their trees have the form that the grammar gives, and where they are accepted, their cores are well
//! formed and keep their outcomes.
//!
//! It stands on the definitions of the lexer, the grammar, acceptance and the lowering, and has no code of its own.
#![tactic(auto)]

mod laws;
pub mod printing;

pub use laws::{compiled_core, read_programs};

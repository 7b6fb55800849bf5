//! The law of the canonical text: what is printed is read as the same tree.
//!
//! It stands on the definitions of the lexer, the grammar and the printer, and has no code of its own.

mod laws;

pub use laws::canonical_texts_are_read;

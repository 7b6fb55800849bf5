//! Cuts a source into tokens, which are slices of it, in one pass.
//!
//! A source is cut into pieces: blanks, comments and tokens. Each is the longest spelling that begins where it stands.
//! A source has one token list or one first refusal.
#![tactic(auto)]

mod bytes;
mod laws;
mod lexer;
mod piece;
mod token;
mod tokens;

pub use laws::one_reading;
pub use lexer::lex;
pub use token::{LexCode, LexError, Token, TokenKind};
pub use tokens::Tokens;

//! Expressions, with-loops and statements, read from tokens: each function reads one phrase of the grammar with one token of lookahead.
#![tactic(auto)]

pub mod descent;

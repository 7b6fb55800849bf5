//! The levels of binary operators, and tables of operators.
ghost use Rattle.std.specs.Prelude.{◌≡◌, ◌<◌, ◌∷◌, IfSome, length};
ghost use Rattle.sac_phrases.specs.Contract.{lexemes_of, IsOperator};
ghost use Rattle.sac_phrases.specs.Levels.{first_operator, more_operators};

use crate::cursor;
use sac_base::{Op, Site};
use sac_lex::Token;

/// The levels of binary operators, from the loosest.
#[derive(Clone, Copy, Debug, PartialEq, Eq)]
pub enum Level {
    Disjunction,
    Conjunction,
    Equality,
    Comparison,
    Sum,
    Product,
}

const DISJUNCTION: [(&[u8], Op); 1] = [(b"||", Op::Or)];

const CONJUNCTION: [(&[u8], Op); 1] = [(b"&&", Op::And)];

const EQUALITY: [(&[u8], Op); 2] = [(b"==", Op::Eq), (b"!=", Op::Ne)];

const COMPARISON: [(&[u8], Op); 4] = [
    (b"<", Op::Lt),
    (b"<=", Op::Le),
    (b">", Op::Gt),
    (b">=", Op::Ge),
];

const SUM: [(&[u8], Op); 2] = [(b"+", Op::Add), (b"-", Op::Sub)];

const PRODUCT: [(&[u8], Op); 3] = [(b"*", Op::Mul), (b"/", Op::Div), (b"%", Op::Rem)];

/// The operators before an operand.
pub const PREFIX: [(&[u8], Op); 2] = [(b"-", Op::Neg), (b"!", Op::Not)];

/// The operators that are written as functions.
pub const EXTREMES: [(&[u8], Op); 2] = [(b"min", Op::Min), (b"max", Op::Max)];

/// The operators of folds.
pub const FOLDS: [(&[u8], Op); 6] = [
    (b"+", Op::Add),
    (b"*", Op::Mul),
    (b"min", Op::Min),
    (b"max", Op::Max),
    (b"&&", Op::And),
    (b"||", Op::Or),
];

/// The signs that assign the result of an operator.
pub const COMPOUND: [(&[u8], Op); 5] = [
    (b"+=", Op::Add),
    (b"-=", Op::Sub),
    (b"*=", Op::Mul),
    (b"/=", Op::Div),
    (b"%=", Op::Rem),
];

/// The signs that count up or down by one.
pub const STEPS: [(&[u8], Op); 2] = [(b"++", Op::Add), (b"--", Op::Sub)];

/// The operator of the level that the first token is, its site, and the tokens behind it.
pub fn operator<'a>(level: Level, tokens: &'a [Token<'a>]) -> Option<(Op, Site, &'a [Token<'a>])>
    ensures token { IsOperator (first_operator level ∷ more_operators level) (lexemes_of tokens.now) result }
    ensures shorter { IfSome result (λ x. length x.2.now < length tokens.now) }
{
    match level {
        Level::Disjunction => cursor::operator(&DISJUNCTION, tokens),
        Level::Conjunction => cursor::operator(&CONJUNCTION, tokens),
        Level::Equality => cursor::operator(&EQUALITY, tokens),
        Level::Comparison => cursor::operator(&COMPARISON, tokens),
        Level::Sum => cursor::operator(&SUM, tokens),
        Level::Product => cursor::operator(&PRODUCT, tokens),
    }
}

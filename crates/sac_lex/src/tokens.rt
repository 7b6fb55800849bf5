//! The tokens of a source.
ghost use Rattle.std.specs.Prelude.{◌≡◌, map};
ghost use Rattle.sac_lex.specs.Cut.{lexeme, IsEnded};

use crate::token::Token;
use std::marker::Model;

/// The tokens of a source in order, and behind them one end token, whose text is empty.
#[derive(Debug, Drop)]
pub struct Tokens<'a> {
    list: Vec<Token<'a>>,
}

impl<'a> Model for Tokens<'a> {
    ghost use Rattle.std.specs.Prelude.{List, map};
    ghost use Rattle.sac_lex.specs.Cut.{Lexeme, lexeme, IsEnded};

    ghost Value = { List Lexeme };

    ghost view = { λ tokens. map lexeme tokens.list.items };

    ghost invariant = { λ tokens. IsEnded (map lexeme tokens.list.items) };
}

impl<'a> Tokens<'a> {
    pub(crate) fn new(list: Vec<Token<'a>>) -> Self
        requires { IsEnded (map lexeme list.items) }
        ensures { result ≡ map lexeme list.entry.items }
    {
        Tokens { list }
    }

    pub fn as_slice(&self) -> &[Token<'a>]
        ensures tokens { map lexeme result.now ≡ self.now }
        ensures ended { IsEnded self.now }
    {
        self.list.as_slice()
    }
}

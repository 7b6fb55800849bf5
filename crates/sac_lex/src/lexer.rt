//! The lexer.

ghost use Rattle.std.specs.Prelude.{All, IsTrue, ◌≡◌, ◌≤◌, ◌<◌, ◌+◌, ◌^◌, [], ◌∷◌, map, length, MatchOption, IfOk, IfErr};
ghost use Rattle.std.specs.List.{list_any, AllByRecursion};
ghost use Rattle.std.specs.Str.{bytes_eq};
ghost use Rattle.std.specs.Option.{option_to_list};
ghost use Rattle.std.specs.Char.{digit_value};
ghost use Rattle.std.specs.Str.Parse.{digits_value};
ghost use Rattle.sac_lex.specs.Spelling.{IsRun, IsSpelling, is_letter, is_digit, is_word_byte};
ghost use Rattle.sac_lex.specs.Text.{is_reserved};
ghost use Rattle.sac_lex.specs.Cut.{next_site, site_after, lexeme, IsExcess, IsTokenList, StandsIn, IsTokenAt, IsRefusedSource};
ghost use Rattle.sac_lex.specs.declared.piece.PieceKind.TheVariants as piece;

use crate::piece::{self, PieceKind};
use crate::token::{LexCode, LexError, Token, TokenKind};
use crate::tokens::Tokens;
use sac_base::{Name, Site};
use std::alloc::Global;

const MOST_TOKENS: usize = 200_000;

const GREATEST_NUMBER: u64 = 2_147_483_647;

const RESERVED: [&[u8]; 22] = [
    b"int",
    b"bool",
    b"true",
    b"false",
    b"inline",
    b"return",
    b"if",
    b"else",
    b"while",
    b"do",
    b"for",
    b"with",
    b"genarray",
    b"modarray",
    b"fold",
    b"step",
    b"width",
    b"dim",
    b"shape",
    b"reshape",
    b"min",
    b"max",
];

fn contains_text(words: &[&[u8]], text: &[u8]) -> bool
    ensures { result ≡ list_any (λ word. bytes_eq word.now text.now) words.now }
{
    for word in words {
        if *word == text {
            return true;
        }
    }
    false
}

fn is_reserved(text: &[u8]) -> bool
    ensures { result ≡ is_reserved text.now }
{
    contains_text(&RESERVED, text)
}

fn digit_value(digit: u8) -> u64
    requires { IsTrue (is_digit digit) }
    ensures value { result ≡ digit_value digit }
    ensures small { result < 10 }
{
    u64::from(digit - b'0')
}

/// The number that digits spell, where it is within the limit.
fn number_value(digits: &[u8]) -> Option<u64>
    requires { All (λ digit. IsTrue (is_digit digit)) digits.now }
    ensures { MatchOption result (2147483647 < digits_value 10 digits.now) (λ n. (n ≡ digits_value 10 digits.now) × (n ≤ 2147483647)) }
{
    let mut value = 0;
    for byte in digits {
        value = value * 10 + digit_value(*byte);
        if value > GREATEST_NUMBER {
            return None;
        }
    }
    Some(value)
}

fn name_token(text: &[u8], site: Site, count: usize) -> Result<Token<'_>, LexCode>
    requires spelled { IsRun is_letter is_word_byte text.now }
    requires few { count < 200000 }
    ensures ok { IfOk result (λ token. IsTokenAt count piece.Name text.now site (lexeme token ∷ [])) }
    ensures err { IfErr result (λ code. IsExcess count code piece.Name text.now) }
{
    if text.len() > Name::LIMIT {
        return Err(LexCode::L3);
    }
    if is_reserved(text) {
        Ok(Token {
            kind: TokenKind::Word,
            text,
            site,
        })
    } else {
        Ok(Token {
            kind: TokenKind::Name,
            text,
            site,
        })
    }
}

fn number_token(text: &[u8], site: Site, count: usize) -> Result<Token<'_>, LexCode>
    requires spelled { IsRun is_digit is_digit text.now }
    requires few { count < 200000 }
    ensures ok { IfOk result (λ token. IsTokenAt count piece.Number text.now site (lexeme token ∷ [])) }
    ensures err { IfErr result (λ code. IsExcess count code piece.Number text.now) }
{
    if number_value(text).is_none() {
        return Err(LexCode::L2);
    }
    Ok(Token {
        kind: TokenKind::Number,
        text,
        site,
    })
}

fn next_site(site: Site, byte: u8) -> Site
    requires line { site.line + 1 < 2 ^ 32 }
    requires col { site.col + 1 < 2 ^ 32 }
    ensures { result ≡ next_site site byte }
{
    if byte == b'\n' {
        Site {
            line: site.line + 1,
            col: 1,
        }
    } else {
        Site {
            line: site.line,
            col: site.col + 1,
        }
    }
}

/// The site behind a text.
fn site_after(site: Site, text: &[u8]) -> Site
    requires some { 0 < site.col }
    requires line { site.line + length text.now < 2 ^ 32 }
    requires col { site.col + length text.now < 2 ^ 32 }
    ensures { result ≡ site_after site text.now }
{
    let mut at = site;
    for byte in text {
        at = next_site(at, *byte);
    }
    at
}

/// The token that a piece is behind so many tokens, if it is one.
fn token_of<'a>(
    kind: PieceKind,
    text: &'a [u8],
    site: Site,
    count: usize,
) -> Result<Option<Token<'a>>, LexCode>
    requires spelled { IsSpelling kind text.now }
    requires few { count ≤ 200000 }
    ensures ok { IfOk result (λ token. IsTokenAt count kind text.now site (map lexeme (option_to_list token))) }
    ensures err { IfErr result (λ code. IsExcess count code kind text.now) }
{
    match kind {
        PieceKind::Blank | PieceKind::Comment => Ok(None),
        PieceKind::Open => Err(LexCode::L5),
        _ if count == MOST_TOKENS => Err(LexCode::L4),
        PieceKind::Name => Ok(Some(name_token(text, site, count)?)),
        PieceKind::Number => Ok(Some(number_token(text, site, count)?)),
        PieceKind::Sign => Ok(Some(Token {
            kind: TokenKind::Sign,
            text,
            site,
        })),
    }
}

/// Cuts a source into its tokens. The whole source is cut before any tree is looked for, so that a refusal by the lexer comes before all others.
///
/// The source has at most 4,294,967,294 bytes, so that its lines and columns can be counted.
///
/// # Errors
///
/// `Refused` comes exactly where the source has no tokens, with the code and the site of the first refusal in it; `Memory` where no memory was found.
pub fn lex<'a>(alloc: Global, source: &'a [u8]) -> Result<Tokens<'a>, LexError>
    requires { length source.now ≤ 4294967294 }
    ensures tokens { IfOk result (λ tokens. IsTokenList source.now tokens) }
    ensures slices { IfOk result (λ tokens. AllByRecursion (StandsIn source.now) tokens) }
    ensures refused { IfErr result (λ error. IsRefusedSource source.now error) }
{
    let mut list = Vec::new(alloc);
    let mut rest = source;
    let mut site = Site { line: 1, col: 1 };
    'cut: while !rest.is_empty() {
        let Some(piece) = piece::piece_at(rest) else {
            return Err(LexError::Refused(LexCode::L1, site));
        };
        let (text, after) = rest.split_at(piece.len);
        let token = match token_of(piece.kind, text, site, list.len()) {
            Ok(token) => token,
            Err(code) => return Err(LexError::Refused(code, site)),
        };
        if let Some(token) = token {
            list.push(token)?;
        }
        site = site_after(site, text);
        rest = after;
    }
    list.push(Token {
        kind: TokenKind::End,
        text: rest,
        site,
    })?;
    Ok(Tokens::new(list))
}

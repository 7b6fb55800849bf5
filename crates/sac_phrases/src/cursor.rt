//! Steps over tokens.
ghost use Rattle.std.specs.Prelude.{◌≡◌, ◌<◌, ◌∷◌, [], IfOk, IfSome, length, map, true};
ghost use Rattle.sac_ast.specs.Shape.{text, name, number, end, matches};
ghost use Rattle.sac_ast.specs.Texts.{is_name};
ghost use Rattle.sac_grammar.specs.Run.{starts};
ghost use Rattle.sac_phrases.specs.Contract.{lexeme, lexemes_of, IsToken, IsAccepted, IsOperator, operator_of, texts, is_number_token};

use crate::halt::Halt;
use sac_base::{Op, Site};
use sac_lex::{Token, TokenKind};

/// Whether the token is this word or sign.
pub fn is_text(token: &Token, bytes: &[u8]) -> bool
    ensures { result ≡ matches (text bytes.now) (lexeme token.now) }
{
    bytes == token.text
}

/// Whether the first token is this word or sign.
pub fn starts_with(tokens: &[Token], bytes: &[u8]) -> bool
    ensures { result ≡ starts (text bytes.now ∷ []) (lexemes_of tokens.now) }
{
    match tokens.first() {
        Some(token) => is_text(token, bytes),
        None => false,
    }
}

/// Whether the first token is one of these words and signs.
pub fn starts_with_any(tokens: &[Token], table: &[&[u8]]) -> bool
    ensures { result ≡ starts (texts (map (λ b. b.now) table.now)) (lexemes_of tokens.now) }
{
    for bytes in table {
        if starts_with(tokens, bytes) {
            return true;
        }
    }
    false
}

/// Whether the token is a name.
fn is_name(token: &Token) -> bool
    ensures { result ≡ is_name token.now.text.now }
{
    match token.kind {
        TokenKind::Name => true,
        TokenKind::Word => false,
        TokenKind::Number => false,
        TokenKind::Sign => false,
        TokenKind::End => false,
    }
}

/// Whether the first token is a name.
pub fn starts_name(tokens: &[Token]) -> bool
    ensures { result ≡ starts (name ∷ []) (lexemes_of tokens.now) }
{
    match tokens.first() {
        Some(token) => is_name(token),
        None => false,
    }
}

/// Whether the first token is a number.
pub fn starts_number(tokens: &[Token]) -> bool
    ensures { result ≡ starts (number ∷ []) (lexemes_of tokens.now) }
{
    match tokens.first() {
        Some(token) => token.kind == TokenKind::Number,
        None => false,
    }
}

/// The first token, which is to be this word or sign, and the tokens behind it.
pub fn expect<'a>(
    tokens: &'a [Token<'a>],
    bytes: &[u8],
) -> Result<(Token<'a>, &'a [Token<'a>]), Halt<'a>>
    ensures token { IsToken (text bytes.now) lexeme (lexemes_of tokens.now) result }
    ensures shorter { IfOk result (λ x. length x.1.now < length tokens.now) }
{
    let Some((token, rest)) = tokens.split_first() else {
        return Err(Halt::Stuck(tokens));
    };
    if is_text(token, bytes) {
        Ok((*token, rest))
    } else {
        Err(Halt::Stuck(tokens))
    }
}

/// The first token and the tokens behind it, where it is this word or sign.
pub fn accept<'a>(tokens: &'a [Token<'a>], bytes: &[u8]) -> Option<(Token<'a>, &'a [Token<'a>])>
    ensures token { IsAccepted (text bytes.now) (lexemes_of tokens.now) result }
    ensures shorter { IfSome result (λ x. length x.1.now < length tokens.now) }
{
    let (token, rest) = tokens.split_first()?;
    if is_text(token, bytes) {
        Some((*token, rest))
    } else {
        None
    }
}

/// The first token, which is to be a name, and the tokens behind it.
pub fn expect_name<'a>(tokens: &'a [Token<'a>]) -> Result<(Token<'a>, &'a [Token<'a>]), Halt<'a>>
    ensures token { IsToken name lexeme (lexemes_of tokens.now) result }
    ensures name { IfOk result (λ x. is_name x.0.text.now ≡ true) }
    ensures shorter { IfOk result (λ x. length x.1.now < length tokens.now) }
{
    let Some((token, rest)) = tokens.split_first() else {
        return Err(Halt::Stuck(tokens));
    };
    if is_name(token) {
        Ok((*token, rest))
    } else {
        Err(Halt::Stuck(tokens))
    }
}

/// The first token, which is to be a number, and the tokens behind it.
pub fn expect_number<'a>(tokens: &'a [Token<'a>]) -> Result<(Token<'a>, &'a [Token<'a>]), Halt<'a>>
    ensures token { IsToken number lexeme (lexemes_of tokens.now) result }
    ensures kind { IfOk result (λ x. is_number_token x.0) }
    ensures shorter { IfOk result (λ x. length x.1.now < length tokens.now) }
{
    let Some((token, rest)) = tokens.split_first() else {
        return Err(Halt::Stuck(tokens));
    };
    if token.kind == TokenKind::Number {
        Ok((*token, rest))
    } else {
        Err(Halt::Stuck(tokens))
    }
}

/// The first token, which is to be the end, and the tokens behind it.
pub fn expect_end<'a>(tokens: &'a [Token<'a>]) -> Result<(Token<'a>, &'a [Token<'a>]), Halt<'a>>
    ensures token { IsToken end lexeme (lexemes_of tokens.now) result }
    ensures shorter { IfOk result (λ x. length x.1.now < length tokens.now) }
{
    let Some((token, rest)) = tokens.split_first() else {
        return Err(Halt::Stuck(tokens));
    };
    if token.text.is_empty() {
        Ok((*token, rest))
    } else {
        Err(Halt::Stuck(tokens))
    }
}

/// The operator that the first token is, by a table of spellings.
fn operator_of(table: &[(&[u8], Op)], tokens: &[Token]) -> Option<(Op, Site)>
    ensures { result ≡ operator_of (map (λ o. (o.0.now, o.1)) table.now) (lexemes_of tokens.now) }
{
    let token = tokens.first()?;
    for (spelling, op) in table {
        if is_text(token, spelling) {
            return Some((*op, token.site));
        }
    }
    None
}

/// The operator that the first token is, its site, and the tokens behind it.
pub fn operator<'a>(
    table: &[(&[u8], Op)],
    tokens: &'a [Token<'a>],
) -> Option<(Op, Site, &'a [Token<'a>])>
    ensures token { IsOperator (map (λ o. (o.0.now, o.1)) table.now) (lexemes_of tokens.now) result }
    ensures shorter { IfSome result (λ x. length x.2.now < length tokens.now) }
{
    let (op, site) = operator_of(table, tokens)?;
    let (_token, rest) = tokens.split_first()?;
    Some((op, site, rest))
}

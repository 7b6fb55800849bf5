//! The limit on open brackets.
ghost use Rattle.std.specs.Prelude.{◌≡◌, ◌<◌, ◌≤◌, ◌+◌, ◌∷◌, [], ◌&&◌, MatchOption, length, take, List, codes};
ghost use Rattle.std.specs.Str.{bytes_eq};
ghost use Rattle.sac_ast.specs.Texts.{Lexeme};
ghost use Rattle.sac_ast.specs.Heights.{open_behind};
ghost use Rattle.sac_phrases.specs.Contract.{lexeme, lexemes_of};
ghost use Rattle.sac_refusals.specs.Words.{ends_with_fold, opens_next, next_brackets};
ghost use Rattle.sac_parse.specs.Brackets.{IsFirstCrowded, IsUncrowded, IsWithinBrackets};

use sac_lex::Token;
use sac_phrases::cursor;

/// The most brackets that may be open at a token.
const MOST_OPEN: usize = 200;

/// The words behind which the grammar has an opening bracket, but for `min` and `max` where they are a fold's operator.
const BRACKET_WORDS: [&[u8]; 14] = [
    b"dim",
    b"shape",
    b"reshape",
    b"min",
    b"max",
    b"with",
    b"genarray",
    b"modarray",
    b"fold",
    b"if",
    b"while",
    b"do",
    b"for",
    b"return",
];

/// Whether two tokens are `fold (`.
fn is_fold(word: &Token, bracket: &Token) -> bool
    ensures { result ≡ (bytes_eq (codes "fold") word.now.text.now && bytes_eq (codes "(") bracket.now.text.now) }
{
    cursor::is_text(word, b"fold") && cursor::is_text(bracket, b"(")
}

/// Whether the tokens end with `fold (`, behind which its operator stands.
fn ends_with_fold(tokens: &[Token]) -> bool
    ensures { result ≡ ends_with_fold (lexemes_of tokens.now) }
{
    let count = tokens.len();
    if count < 2 {
        return false;
    }
    is_fold(&tokens[count - 2], &tokens[count - 1])
}

/// Whether a bracket must open at once behind the first token of the rest.
fn opens_next(before: &[Token], rest: &[Token]) -> bool
    ensures { (t : Lexeme) (r : List Lexeme) → lexemes_of rest.now ≡ t ∷ r → result ≡ opens_next (lexemes_of before.now) t }
{
    let is_word = cursor::starts_with_any(rest, &BRACKET_WORDS);
    let is_operator = ends_with_fold(before);
    is_word && !is_operator
}

/// So many brackets, and one more where one must open at once behind the first token of the rest.
fn with_next(depth: usize, before: &[Token], rest: &[Token]) -> usize
    requires { depth ≤ 201 }
    ensures next { (t : Lexeme) (r : List Lexeme) → lexemes_of rest.now ≡ t ∷ r → result ≡ depth + next_brackets (lexemes_of before.now) t }
    ensures least { depth ≤ result }
{
    if opens_next(before, rest) {
        depth + 1
    } else {
        depth
    }
}

/// How many brackets are open behind a token, where so many are before it.
fn open_behind(depth: usize, token: &Token) -> usize
    requires { depth ≤ 200 }
    ensures open { result ≡ open_behind depth (lexeme token.now ∷ []) }
    ensures few { result ≤ depth + 1 }
{
    if cursor::is_text(token, b"(")
        || cursor::is_text(token, b"[")
        || cursor::is_text(token, b"{")
    {
        depth + 1
    } else if cursor::is_text(token, b")")
        || cursor::is_text(token, b"]")
        || cursor::is_text(token, b"}")
    {
        depth.saturating_sub(1)
    } else {
        depth
    }
}

/// The first token at which more brackets are open, or must open behind it, than the limit allows.
pub fn first_crowded(tokens: &[Token]) -> Option<usize>
    ensures { MatchOption result (IsUncrowded (lexemes_of tokens.now)) (IsFirstCrowded tokens.now) }
{
    let mut depth = 0;
    for (i, token) in tokens.iter().enumerate() {
        depth = open_behind(depth, token);
        let (before, rest) = tokens.split_at(i);
        if with_next(depth, before, rest) > MOST_OPEN {
            return Some(i);
        }
    }
    None
}

/// The tokens as far as the first one that the limit on brackets leaves no room for, itself included.
pub fn within_brackets<'a>(tokens: &'a [Token<'a>]) -> &'a [Token<'a>]
    ensures { IsWithinBrackets tokens.now result.now }
{
    let Some(i) = first_crowded(tokens) else {
        return tokens;
    };
    let (read, _later) = tokens.split_at(i + 1);
    read
}

//! Types of arrays.
ghost use Rattle.std.specs.Prelude.{◌≡◌, ◌<◌, ◌≤◌, ◌+◌, IfOk, length, codes, pos};
ghost use Rattle.std.specs.Str.Parse.{digits_value};
ghost use Rattle.sac_ast.specs.Shape.{term, alt, ref, number as a_number};
ghost use Rattle.sac_ast.specs.Grammar.{type', sign, opt, up_to, Extents};
ghost use Rattle.sac_phrases.specs.Contract.{lexemes_of, IsLeafAt, is_number_token};
ghost use Rattle.sac_parse.specs.Leaves.{IsBase, IsCount, AreNumbers, IsInnerPart, IsType};

use sac_base::{ArrayType, Base, Part, Shape};
use sac_lex::Token;
use sac_phrases::halt::Halt;
use sac_phrases::{cursor, leaf};
use std::alloc::Global;

fn base<'a>(tokens: &'a [Token<'a>]) -> Result<(Base, &'a [Token<'a>]), Halt<'a>>
    ensures phrase { IsLeafAt (alt (sign (codes "int")) (sign (codes "bool"))) IsBase (lexemes_of tokens.now) result }
    ensures shorter { IfOk result (λ x. length x.1.now < length tokens.now) }
{
    if let Some((_word, rest)) = cursor::accept(tokens, b"int") {
        return Ok((Base::Int, rest));
    }
    let (_word, rest) = cursor::expect(tokens, b"bool")?;
    Ok((Base::Bool, rest))
}

/// One dot and so many more at most, with commas.
fn dots<'a>(more: u32, tokens: &'a [Token<'a>]) -> Result<(u32, &'a [Token<'a>]), Halt<'a>>
    requires { more ≤ 7 }
    ensures phrase { IsLeafAt (up_to more (sign (codes "."))) (IsCount more) (lexemes_of tokens.now) result }
    ensures few { IfOk result (λ x. x.0 ≤ more + 1) }
    ensures shorter { IfOk result (λ x. length x.1.now < length tokens.now) }
{
    let (_dot, rest) = cursor::expect(tokens, b".")?;
    if more == 0 {
        return Ok((1, rest));
    }
    let Some((_comma, rest)) = cursor::accept(rest, b",") else {
        return Ok((1, rest));
    };
    let (count, rest) = dots(more - 1, rest)?;
    Ok((count + 1, rest))
}

/// One number and so many more at most, with commas, behind those that were found.
fn extents<'a>(
    more: u32,
    mut found: Vec<i32>,
    tokens: &'a [Token<'a>],
) -> Result<(Vec<i32>, &'a [Token<'a>]), Halt<'a>>
    ensures phrase { IsLeafAt (up_to more (term a_number)) (AreNumbers found.items more) (lexemes_of tokens.now) result }
    ensures shorter { IfOk result (λ x. length x.1.now < length tokens.now) }
{
    let (token, rest) = cursor::expect_number(tokens)?;
    found.push(number(token))?;
    if more == 0 {
        return Ok((found, rest));
    }
    let Some((_comma, rest)) = cursor::accept(rest, b",") else {
        return Ok((found, rest));
    };
    extents(more - 1, found, rest)
}

/// The number that a token is.
fn number(token: Token) -> i32
    requires { is_number_token token }
    ensures { result ≡ pos (digits_value 10 token.entry.text.now) }
{
    leaf::number_value(token.text) as i32
}

/// The shapes that the brackets behind a base allow.
fn extents_part<'a>(
    alloc: Global,
    tokens: &'a [Token<'a>],
) -> Result<(Part, &'a [Token<'a>]), Halt<'a>>
    ensures phrase { IsLeafAt (opt Extents) IsInnerPart (lexemes_of tokens.now) result }
    ensures shorter { IfOk result (λ x. length x.1.now ≤ length tokens.now) }
{
    if let Some((_sign, rest)) = cursor::accept(tokens, b"+") {
        return Ok((Part::Plus, rest));
    }
    if let Some((_sign, rest)) = cursor::accept(tokens, b"*") {
        return Ok((Part::Star, rest));
    }
    if cursor::starts_with(tokens, b".") {
        let (rank, rest) = dots(7, tokens)?;
        return Ok((Part::Rank(rank), rest));
    }
    if cursor::starts_number(tokens) {
        let (list, rest) = extents(7, Vec::new(alloc), tokens)?;
        let shape = Shape::from_extents(alloc, &list).unwrap();
        return Ok((Part::Known(shape), rest));
    }
    Ok((Part::Known(Shape::empty(alloc)), tokens))
}

pub fn array_type<'a>(
    alloc: Global,
    tokens: &'a [Token<'a>],
) -> Result<(ArrayType, &'a [Token<'a>]), Halt<'a>>
    ensures phrase { IsLeafAt (ref type') IsType (lexemes_of tokens.now) result }
    ensures shorter { IfOk result (λ x. length x.1.now < length tokens.now) }
{
    let (base, rest) = base(tokens)?;
    let Some((_open, rest)) = cursor::accept(rest, b"[") else {
        let part = Part::Known(Shape::empty(alloc));
        return Ok((ArrayType { base, part }, rest));
    };
    let (part, rest) = extents_part(alloc, rest)?;
    let (_close, rest) = cursor::expect(rest, b"]")?;
    Ok((ArrayType { base, part }, rest))
}

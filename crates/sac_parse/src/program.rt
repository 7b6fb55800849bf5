//! Functions and programs.
ghost use Rattle.std.specs.Prelude.{◌<◌, ◌≤◌, IfOk, length, codes};
ghost use Rattle.sac_ast.specs.Shape.{ref};
ghost use Rattle.sac_ast.specs.Grammar.{type', param, opt, listed, parens};
ghost use Rattle.sac_phrases.specs.Contract.{lexemes_of, IsLeafAt, IsPartAt};
ghost use Rattle.sac_parse.specs.Leaves.{IsParam, AreTypes, AreParams, AreParamsInParens, IsInlineAt};
ghost use Rattle.sac_parse.specs.Programs.{Ending, IsReturned, IsFunctionAt, IsProgramAt};

use crate::array_type::array_type;
use sac_ast::{Expression, Function, Param, Program};
use sac_base::{ArrayType, Site};
use sac_descent::descent;
use sac_lex::Token;
use sac_phrases::halt::Halt;
use sac_phrases::place::{Measured, Place};
use sac_phrases::{cursor, leaf};
use std::alloc::Global;

const TYPES: [&[u8]; 2] = [b"int", b"bool"];

const FUNCTIONS: [&[u8]; 3] = [b"inline", b"int", b"bool"];

/// The values that a function returns, with the site of the word.
#[derive(Drop)]
pub struct Returned {
    values: Measured<Vec<Expression>>,
    site: Site,
}

/// Types with commas between them.
fn types<'a>(
    alloc: Global,
    tokens: &'a [Token<'a>],
) -> Result<(Vec<ArrayType>, &'a [Token<'a>]), Halt<'a>>
    ensures phrase { IsLeafAt (listed (ref type')) AreTypes (lexemes_of tokens.now) result }
    ensures shorter { IfOk result (λ x. length x.1.now < length tokens.now) }
{
    let (first, mut rest) = array_type(alloc, tokens)?;
    let mut found = Vec::new(alloc);
    found.push(first)?;
    while let Some((_comma, behind)) = cursor::accept(rest, b",") {
        let (next, after) = array_type(alloc, behind)?;
        found.push(next)?;
        rest = after;
    }
    Ok((found, rest))
}

fn param<'a>(alloc: Global, tokens: &'a [Token<'a>]) -> Result<(Param, &'a [Token<'a>]), Halt<'a>>
    ensures phrase { IsLeafAt (ref param) IsParam (lexemes_of tokens.now) result }
    ensures shorter { IfOk result (λ x. length x.1.now < length tokens.now) }
{
    let (ty, rest) = array_type(alloc, tokens)?;
    let (token, rest) = cursor::expect_name(rest)?;
    let name = leaf::name(alloc, token)?;
    let site = token.site;
    Ok((Param { ty, name, site }, rest))
}

/// Parameters with commas between them, or none.
fn params<'a>(
    alloc: Global,
    tokens: &'a [Token<'a>],
) -> Result<(Vec<Param>, &'a [Token<'a>]), Halt<'a>>
    ensures phrase { IsLeafAt (opt (listed (ref param))) AreParams (lexemes_of tokens.now) result }
    ensures shorter { IfOk result (λ x. length x.1.now ≤ length tokens.now) }
{
    let mut found = Vec::new(alloc);
    if !cursor::starts_with_any(tokens, &TYPES) {
        return Ok((found, tokens));
    }
    let (first, mut rest) = param(alloc, tokens)?;
    found.push(first)?;
    while let Some((_comma, behind)) = cursor::accept(rest, b",") {
        let (next, after) = param(alloc, behind)?;
        found.push(next)?;
        rest = after;
    }
    Ok((found, rest))
}

fn params_in_parens<'a>(
    alloc: Global,
    tokens: &'a [Token<'a>],
) -> Result<(Vec<Param>, &'a [Token<'a>]), Halt<'a>>
    ensures phrase { IsLeafAt (parens (opt (listed (ref param)))) AreParamsInParens (lexemes_of tokens.now) result }
    ensures shorter { IfOk result (λ x. length x.1.now < length tokens.now) }
{
    let (_open, rest) = cursor::expect(tokens, b"(")?;
    let (params, rest) = params(alloc, rest)?;
    let (_close, rest) = cursor::expect(rest, b")")?;
    Ok((params, rest))
}

/// Whether a function is inline.
fn inline<'a>(tokens: &'a [Token<'a>]) -> (bool, &'a [Token<'a>])
    ensures phrase { IsInlineAt (lexemes_of tokens.now) result }
    ensures shorter { length result.1.now ≤ length tokens.now }
{
    match cursor::accept(tokens, b"inline") {
        Some((_word, rest)) => (true, rest),
        None => (false, tokens),
    }
}

/// What a function returns, and its end.
fn ending<'a>(
    place: Place,
    tokens: &'a [Token<'a>],
) -> Result<(Returned, &'a [Token<'a>]), Halt<'a>>
    ensures phrase { IsPartAt place Ending (IsReturned place) (lexemes_of tokens.now) result }
    ensures shorter { IfOk result (λ x. length x.1.now < length tokens.now) }
{
    let (word, rest) = cursor::expect(tokens, b"return")?;
    let (_open, rest) = cursor::expect(rest, b"(")?;
    let (values, rest) = descent::list(place, rest)?;
    let (_close, rest) = cursor::expect(rest, b")")?;
    let (_end, rest) = cursor::expect(rest, b";")?;
    let (_close, rest) = cursor::expect(rest, b"}")?;
    let site = word.site;
    Ok((Returned { values, site }, rest))
}

fn function<'a>(
    alloc: Global,
    checked: bool,
    tokens: &'a [Token<'a>],
) -> Result<(Function, &'a [Token<'a>]), Halt<'a>>
    ensures phrase { IsFunctionAt checked (lexemes_of tokens.now) result }
    ensures shorter { IfOk result (λ x. length x.1.now < length tokens.now) }
{
    let place = Place {
        alloc,
        depth: 0,
        checked,
    };
    let (inline, rest) = inline(tokens);
    let (results, rest) = types(alloc, rest)?;
    let (token, rest) = cursor::expect_name(rest)?;
    let name = leaf::name(alloc, token)?;
    let (params, rest) = params_in_parens(alloc, rest)?;
    let (_open, rest) = cursor::expect(rest, b"{")?;
    let (body, rest) = descent::statements(place, rest)?;
    let (end, rest) = ending(place, rest)?;
    let function = Function {
        inline,
        results,
        name,
        site: token.site,
        params,
        body: body.tree,
        values: end.values.tree,
        ends: end.site,
    };
    Ok((function, rest))
}

/// A whole program. Where heights are checked, it gives up at the first token with which each program is too high.
pub fn program<'a>(
    alloc: Global,
    checked: bool,
    tokens: &'a [Token<'a>],
) -> Result<(Program, &'a [Token<'a>]), Halt<'a>>
    ensures phrase { IsProgramAt checked (lexemes_of tokens.now) result }
    ensures shorter { IfOk result (λ x. length x.1.now < length tokens.now) }
{
    let mut functions = Vec::new(alloc);
    let (_read, mut rest) = tokens.split_at(0);
    while cursor::starts_with_any(rest, &FUNCTIONS) {
        let (next, after) = function(alloc, checked, rest)?;
        functions.push(next)?;
        rest = after;
    }
    let (end, rest) = cursor::expect_end(rest)?;
    let end = end.site;
    Ok((Program { functions, end }, rest))
}

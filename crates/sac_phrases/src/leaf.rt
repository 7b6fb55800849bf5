//! Phrases without expressions in them, and small steps of the others.
ghost use Rattle.std.specs.Prelude.{◌≡◌, ◌<◌, ◌≤◌, ◌+◌, ◌∷◌, ◌++◌, [], max, Option, Some, None, IfOk, IfErr, length, map, codes, true, All, IsTrue};
ghost use Rattle.std.specs.Char.{digit_value};
ghost use Rattle.std.specs.Str.Parse.{digits_value};
ghost use Rattle.sac_lex.specs.Spelling.{is_digit};
ghost use Rattle.sac_ast.specs.Shape.{term, seq, alt, many, ref, name};
ghost use Rattle.sac_ast.specs.Grammar.{rule, primary, index, expression, statement, sign, target, to_variable};
ghost use Rattle.sac_ast.specs.View as view;
ghost use Rattle.sac_ast.specs.Tree as tree;
ghost use Rattle.sac_ast.specs.Texts.{is_name};
ghost use Rattle.sac_grammar.specs.Run.{starts};
ghost use Rattle.sac_grammar.specs.Tables.{first_of};
ghost use Rattle.sac_grammar.specs.Limits.{least_parts};
ghost use Rattle.sac_grammar.specs.Parsing.{nth};
ghost use Rattle.sac_phrases.specs.declared.halt.Halt.TheVariants.{Memory};
ghost use Rattle.sac_phrases.specs.Contract.{lexeme, lexemes_of, unboxed, IsPartAt, IsLeafAt};
ghost use Rattle.sac_phrases.specs.Parts.{IsPrimary, IsBuiltinWord, IsRelation, AreTargets, Counts, IsCount, IsFor, IsForHeight, IsUpdate};

use crate::halt::Halt;
use crate::place::{self, Measured, Place, Read};
use crate::{cursor, level, node};
use sac_ast::{Builtin, Expression, Index, Param, Statement, Target};
use sac_base::{ArrayType, Base, Name, Op, Part, Shape, Site};
use sac_lex::Token;
use std::alloc::Global;

/// The words of the built-in functions of one argument.
pub const BUILTINS: [&[u8]; 2] = [b"dim", b"shape"];

/// The words of the operators that are written as functions.
pub const EXTREMES: [&[u8]; 2] = [b"min", b"max"];

/// The signs behind the first name of an assignment of one or more targets.
pub const SEVERAL: [&[u8]; 2] = [b",", b"="];

/// The signs that assign the result of an operator.
pub const COMPOUND: [&[u8]; 5] = [b"+=", b"-=", b"*=", b"/=", b"%="];

const EXPRESSION: [&[u8]; 12] = [
    b"-", b"!", b"true", b"false", b"dim", b"shape", b"reshape", b"min", b"max", b"(", b"[",
    b"with",
];

const PAIRS: [&[u8]; 5] = [b"dim", b"shape", b"reshape", b"min", b"max"];

const STATEMENT: [&[u8]; 4] = [b"if", b"while", b"do", b"for"];

/// Whether an expression begins here.
pub fn starts_expression(tokens: &[Token]) -> bool
    ensures { result ≡ starts (first_of expression) (lexemes_of tokens.now) }
{
    cursor::starts_number(tokens)
        || cursor::starts_name(tokens)
        || cursor::starts_with_any(tokens, &EXPRESSION)
}

/// Whether a statement begins here.
pub fn starts_statement(tokens: &[Token]) -> bool
    ensures { result ≡ starts (first_of statement) (lexemes_of tokens.now) }
{
    cursor::starts_name(tokens) || cursor::starts_with_any(tokens, &STATEMENT)
}

/// How high the parts of a primary expression are at least, by its first token.
pub fn least_parts(tokens: &[Token]) -> u32
    ensures { result ≡ least_parts (lexemes_of tokens.now) }
{
    if cursor::starts_with(tokens, b"with") {
        2
    } else if cursor::starts_with_any(tokens, &PAIRS) {
        1
    } else {
        0
    }
}

/// The name that a token is.
pub fn name<'a>(alloc: Global, token: Token<'a>) -> Result<Name, Halt<'a>>
    requires { is_name token.text.now ≡ true }
    ensures name { IfOk result (λ name. name ≡ token.entry.text.now) }
    ensures memory { IfErr result (λ e. e ≡ Memory) }
{
    match Name::from_bytes(alloc, token.text) {
        Ok(Some(name)) => Ok(name),
        Ok(None) => Err(Halt::Memory),
        Err(_memory) => Err(Halt::Memory),
    }
}

/// The name that a token is, with its site.
pub fn target<'a>(alloc: Global, token: Token<'a>) -> Result<Target, Halt<'a>>
    requires { is_name token.text.now ≡ true }
    ensures target { IfOk result (λ x. x ≡ target (lexeme token.entry)) }
    ensures memory { IfErr result (λ e. e ≡ Memory) }
{
    let name = name(alloc, token)?;
    Ok(Target {
        name,
        site: token.site,
    })
}

fn digit_value(byte: u8) -> u32
    requires { IsTrue (is_digit byte) }
    ensures value { result ≡ digit_value byte }
    ensures small { result ≤ 9 }
{
    u32::from(byte - b'0')
}

/// The number that digits spell, at most 2,147,483,647.
pub fn number_value(digits: &[u8]) -> u32
    requires digits { All (λ digit. IsTrue (is_digit digit)) digits.now }
    requires small { digits_value 10 digits.now ≤ 2147483647 }
    ensures { result ≡ digits_value 10 digits.now }
{
    let mut value = 0;
    for byte in digits {
        value = value * 10 + digit_value(*byte);
    }
    value
}

/// A number.
pub fn number<'a>(place: Place, tokens: &'a [Token<'a>]) -> Read<'a, Box<Expression>>
    ensures phrase { IsPartAt place (nth 0 (rule primary)) (IsPrimary place 0) (lexemes_of tokens.now) result }
    ensures shorter { IfOk result (λ x. length x.1.now < length tokens.now) }
{
    let (token, rest) = cursor::expect_number(tokens)?;
    let value = number_value(token.text) as i32;
    Ok((node::number(place, value, token.site)?, rest))
}

/// The truth value `true`.
pub fn truth_true<'a>(place: Place, tokens: &'a [Token<'a>]) -> Read<'a, Box<Expression>>
    ensures phrase { IsPartAt place (nth 1 (rule primary)) (IsPrimary place 1) (lexemes_of tokens.now) result }
    ensures shorter { IfOk result (λ x. length x.1.now < length tokens.now) }
{
    let (token, rest) = cursor::expect(tokens, b"true")?;
    Ok((node::truth(place, true, token.site)?, rest))
}

/// The truth value `false`.
pub fn truth_false<'a>(place: Place, tokens: &'a [Token<'a>]) -> Read<'a, Box<Expression>>
    ensures phrase { IsPartAt place (nth 2 (rule primary)) (IsPrimary place 2) (lexemes_of tokens.now) result }
    ensures shorter { IfOk result (λ x. length x.1.now < length tokens.now) }
{
    let (token, rest) = cursor::expect(tokens, b"false")?;
    Ok((node::truth(place, false, token.site)?, rest))
}

/// The word of a built-in function of one argument.
pub fn builtin_word<'a>(
    tokens: &'a [Token<'a>],
) -> Result<((Builtin, Site), &'a [Token<'a>]), Halt<'a>>
    ensures phrase { IsLeafAt (alt (sign (codes "dim")) (sign (codes "shape"))) IsBuiltinWord (lexemes_of tokens.now) result }
    ensures shorter { IfOk result (λ x. length x.1.now < length tokens.now) }
{
    if let Some((word, rest)) = cursor::accept(tokens, b"dim") {
        return Ok(((Builtin::Dim, word.site), rest));
    }
    let (word, rest) = cursor::expect(tokens, b"shape")?;
    Ok(((Builtin::Shape, word.site), rest))
}

/// Whether a bound is a member, by the sign beside it.
pub fn relation<'a>(tokens: &'a [Token<'a>]) -> Result<(bool, &'a [Token<'a>]), Halt<'a>>
    ensures phrase { IsLeafAt (alt (sign (codes "<=")) (sign (codes "<"))) IsRelation (lexemes_of tokens.now) result }
    ensures shorter { IfOk result (λ x. length x.1.now < length tokens.now) }
{
    if let Some((_sign, rest)) = cursor::accept(tokens, b"<=") {
        return Ok((true, rest));
    }
    let (_sign, rest) = cursor::expect(tokens, b"<")?;
    Ok((false, rest))
}

/// The names behind the first one, with commas between them.
pub fn targets<'a>(
    alloc: Global,
    first: Token<'a>,
    tokens: &'a [Token<'a>],
) -> Result<(Vec<Target>, &'a [Token<'a>]), Halt<'a>>
    requires { is_name first.text.now ≡ true }
    ensures phrase { IsLeafAt (many (seq (sign (codes ",")) (term name))) (AreTargets (lexeme first.entry)) (lexemes_of tokens.now) result }
    ensures shorter { IfOk result (λ x. length x.1.now ≤ length tokens.now) }
{
    let mut found = Vec::new(alloc);
    found.push(target(alloc, first)?)?;
    let (_read, mut rest) = tokens.split_at(0);
    while let Some((_comma, behind)) = cursor::accept(rest, b",") {
        let (token, after) = cursor::expect_name(behind)?;
        found.push(target(alloc, token)?)?;
        rest = after;
    }
    Ok((found, rest))
}

/// The index of a generator: a name, or names in brackets.
pub fn index<'a>(
    alloc: Global,
    tokens: &'a [Token<'a>],
) -> Result<(Index, &'a [Token<'a>]), Halt<'a>>
    ensures phrase { IsLeafAt (ref index) (λ i v. view.index_view i ≡ v) (lexemes_of tokens.now) result }
    ensures shorter { IfOk result (λ x. length x.1.now < length tokens.now) }
{
    if cursor::starts_name(tokens) {
        let (token, rest) = cursor::expect_name(tokens)?;
        return Ok((Index::Named(target(alloc, token)?), rest));
    }
    let (_open, rest) = cursor::expect(tokens, b"[")?;
    let (token, rest) = cursor::expect_name(rest)?;
    let (names, rest) = targets(alloc, token, rest)?;
    let (_close, rest) = cursor::expect(rest, b"]")?;
    Ok((Index::Parts(names), rest))
}

/// An expression that is left out.
pub fn absent() -> Measured<Option<Expression>>
    ensures { (result.tree ≡ None) × (result.height ≡ 0) }
{
    Measured {
        tree: None,
        height: 0,
    }
}

/// An expression that is there.
pub fn present(value: Measured<Box<Expression>>) -> Measured<Option<Expression>>
    ensures { (result.tree ≡ Some value.tree.value) × (result.height ≡ value.height) }
{
    Measured {
        tree: Some(Box::into_inner(value.tree)),
        height: value.height,
    }
}

/// One statement alone.
pub fn one<'a>(
    place: Place,
    node: Measured<Statement>,
) -> Result<Measured<Vec<Statement>>, Halt<'a>>
    ensures tree { IfOk result (λ list. list.tree.items ≡ node.tree ∷ []) }
    ensures height { IfOk result (λ list. list.height ≡ node.height) }
    ensures memory { IfErr result (λ e. e ≡ Memory) }
{
    let mut list = Vec::new(place.alloc);
    list.push(node.tree)?;
    Ok(Measured {
        tree: list,
        height: node.height,
    })
}

/// The statements with one more behind them.
fn followed_by<'a>(
    mut list: Measured<Vec<Statement>>,
    last: Measured<Statement>,
) -> Result<Measured<Vec<Statement>>, Halt<'a>>
    ensures tree { IfOk result (λ all. all.tree.items ≡ list.tree.items ++ (last.tree ∷ [])) }
    ensures height { IfOk result (λ all. all.height ≡ max list.height last.height) }
    ensures memory { IfErr result (λ e. e ≡ Memory) }
{
    list.tree.push(last.tree)?;
    Ok(Measured {
        tree: list.tree,
        height: list.height.max(last.height),
    })
}

/// The statements that a `for` is read as.
pub fn for_loop<'a>(
    place: Place,
    start: Measured<Statement>,
    cond: Measured<Box<Expression>>,
    step: Measured<Statement>,
    body: Measured<Vec<Statement>>,
    site: Site,
) -> Result<Measured<Vec<Statement>>, Halt<'a>>
    ensures trees { IfOk result (λ list. IsFor start cond step body site list) }
    ensures height { IfOk result (λ list. IsForHeight start.height cond.height step.height body.height list.height) }
    ensures memory { IfErr result (λ e. e ≡ Memory) }
{
    // Both statements stand in lists before the first `?`, which would take one apart to drop it.
    let body = followed_by(body, step);
    let list = one(place, start);
    let (body, list) = (body?, list?);
    followed_by(list, node::while_do(cond, body, site))
}

/// The assignment of an operator's result to its first operand.
pub fn update<'a>(
    place: Place,
    token: Token<'a>,
    op: Op,
    value: Measured<Box<Expression>>,
    site: Site,
) -> Result<Measured<Statement>, Halt<'a>>
    requires { is_name token.text.now ≡ true }
    ensures tree { IfOk result (λ node. IsUpdate (lexeme token.entry) op value site node) }
    ensures height { IfOk result (λ node. value.height ≤ 99 → node.height ≡ 1 + (1 + max 1 value.height)) }
    ensures memory { IfErr result (λ e. e ≡ Memory) }
{
    let (variable, targets) = variable_and_target(place, token)?;
    let value = node::binary(place, op, variable, value, site)?;
    Ok(node::assign(targets, value))
}

// The name that a token is, as a variable and as the one target.
fn variable_and_target<'a>(
    place: Place,
    token: Token<'a>,
) -> Result<(Measured<Box<Expression>>, Vec<Target>), Halt<'a>>
    requires { is_name token.text.now ≡ true }
    ensures variable { IfOk result (λ x. unboxed x.0.tree ≡ to_variable (lexeme token.entry)) }
    ensures height { IfOk result (λ x. x.0.height ≡ 1) }
    ensures targets { IfOk result (λ x. x.1.items ≡ target (lexeme token.entry) ∷ []) }
    ensures memory { IfErr result (λ e. e ≡ Memory) }
{
    let mut targets = Vec::new(place.alloc);
    targets.push(target(place.alloc, token)?)?;
    let variable = node::variable(place, target(place.alloc, token)?)?;
    Ok((variable, targets))
}

/// What stands behind the name of a count by one.
pub fn step<'a>(place: Place, token: Token<'a>, tokens: &'a [Token<'a>]) -> Read<'a, Statement>
    requires { is_name token.text.now ≡ true }
    ensures phrase { IsPartAt place Counts (IsCount place (lexeme token.entry)) (lexemes_of tokens.now) result }
    ensures shorter { IfOk result (λ x. length x.1.now < length tokens.now) }
{
    let Some((op, site, rest)) = cursor::operator(&level::STEPS, tokens) else {
        return Err(Halt::Stuck(tokens));
    };
    let one = node::number(place, 1, site)?;
    Ok((update(place, token, op, one, site)?, rest))
}

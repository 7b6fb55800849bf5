//! Expressions, with-loops and statements, by recursive descent: each function reads one phrase with one token of lookahead.
ghost use Rattle.std.specs.Prelude.{◌≡◌, ◌<◌, ◌≤◌, ◌∷◌, IfErr, IfOk, length, codes, true};
ghost use Rattle.sac_ast.specs.Shape.{ref, seq, many};
ghost use Rattle.sac_ast.specs.Grammar.{expression, prefix, postfix, primary, generator, bound, operation, statement, if_statement, else_branch};
ghost use Rattle.sac_ast.specs.Grammar.{block, assign, sum, listed, opt, parens, sign, rule};
ghost use Rattle.sac_ast.specs.Heights.{height, gen_height, bound_height, operation_height, stmt_height};
ghost use Rattle.sac_ast.specs.View as view;
ghost use Rattle.sac_ast.specs.Texts.{is_name};
ghost use Rattle.sac_grammar.specs.Parsing.{Found, nth};
ghost use Rattle.sac_phrases.specs.Contract.{lexemes_of, lexeme, unboxed, IsNear, IsPhraseAt, IsPhraseNear, IsPartAt, IsNodeAt};
ghost use Rattle.sac_descent.specs.Around.{StopsAround, IsPartSo, IndexOver, ReplaceOver, IsRestAt, ForOver};
ghost use Rattle.sac_phrases.specs.Parts.{IsListOf, IsArguments, IsInParens, IsPair, IsPrimary, IsPrimaryOf, IsGenerators, IsMaybe, IsBlockAt};
ghost use Rattle.sac_phrases.specs.Parts.{itself, AssignRest, IsOperation, IsBlockOf, IsStatements, IsStatement, IsStatementOf, IsElse, IsAssigned};
ghost use Rattle.sac_phrases.specs.Parts.{Comma};
ghost use Rattle.sac_phrases.specs.Levels.{first_operator, more_operators, IsLevelAt, IsOperandAt};

use sac_ast::{Bound, Builtin, Expression, Generator, Operation, Statement, Target};
use sac_base::{Op, Site};
use sac_lex::Token;
use sac_phrases::halt::Halt;
use sac_phrases::level::{self, Level};
use sac_phrases::place::{self, Measured, Place, Read};
use sac_phrases::{cursor, leaf, node};

// ---- expressions

/// Expressions with commas between them.
#[cycle(phrase)]
pub fn list<'a>(place: Place, tokens: &'a [Token<'a>]) -> Read<'a, Vec<Expression>>
    ensures phrase { IsPartAt place (listed (ref expression)) (IsListOf place) (lexemes_of tokens.now) result }
    ensures shorter { IfOk result (λ x. length x.1.now < length tokens.now) }
{
    let (first, mut rest) = expression(place, tokens)?;
    let mut height = first.height;
    let mut found = Vec::new(place.alloc);
    found.push(Box::into_inner(first.tree))?;
    while let Some((_comma, behind)) = cursor::accept(rest, b",") {
        let (next, after) = expression(place, behind)?;
        height = height.max(next.height);
        found.push(Box::into_inner(next.tree))?;
        rest = after;
    }
    Ok((
        Measured {
            tree: found,
            height,
        },
        rest,
    ))
}

/// The expressions of an index. Two and more are the elements of an array, one node deeper.
#[cycle(phrase)]
fn indices<'a>(place: Place, tokens: &'a [Token<'a>]) -> Read<'a, Vec<Expression>>
    ensures phrase { IsPartSo place (listed (ref expression)) (IsListOf place) (IndexOver place.depth) (lexemes_of tokens.now) result }
    ensures shorter { IfOk result (λ x. length x.1.now < length tokens.now) }
{
    let (first, mut rest) = expression(place, tokens)?;
    let mut height = first.height;
    let mut found = Vec::new(place.alloc);
    found.push(Box::into_inner(first.tree))?;
    while let Some((_comma, behind)) = cursor::accept(rest, b",") {
        if place.has_no_room(height) {
            return Err(Halt::High(rest));
        }
        let (next, after) = expression(place.inside(), behind)?;
        height = height.max(next.height);
        found.push(Box::into_inner(next.tree))?;
        rest = after;
    }
    Ok((
        Measured {
            tree: found,
            height,
        },
        rest,
    ))
}

/// Expressions with commas between them, or none.
#[cycle(phrase)]
fn arguments<'a>(place: Place, tokens: &'a [Token<'a>]) -> Read<'a, Vec<Expression>>
    ensures phrase { IsPartAt place (opt (listed (ref expression))) (IsArguments place) (lexemes_of tokens.now) result }
    ensures shorter { IfOk result (λ x. length x.1.now ≤ length tokens.now) }
{
    if leaf::starts_expression(tokens) {
        return list(place, tokens);
    }
    Ok((
        Measured {
            tree: Vec::new(place.alloc),
            height: 0,
        },
        tokens,
    ))
}

/// An expression in parentheses.
#[cycle(phrase)]
fn parens<'a>(place: Place, tokens: &'a [Token<'a>]) -> Read<'a, Box<Expression>>
    ensures phrase { IsPartAt place (parens (ref expression)) (IsInParens place) (lexemes_of tokens.now) result }
    ensures shorter { IfOk result (λ x. length x.1.now < length tokens.now) }
{
    let (_open, rest) = cursor::expect(tokens, b"(")?;
    let (inner, rest) = expression(place, rest)?;
    let (_close, rest) = cursor::expect(rest, b")")?;
    Ok((inner, rest))
}

/// Two expressions in parentheses.
#[cycle(phrase)]
fn pair<'a>(
    place: Place,
    tokens: &'a [Token<'a>],
) -> Result<
    (
        (Measured<Box<Expression>>, Measured<Box<Expression>>),
        &'a [Token<'a>],
    ),
    Halt<'a>,
>
    ensures phrase { IsPartAt place (parens (Comma (ref expression))) (IsPair place) (lexemes_of tokens.now) result }
    ensures shorter { IfOk result (λ x. length x.1.now < length tokens.now) }
{
    let (_open, rest) = cursor::expect(tokens, b"(")?;
    let (first, rest) = expression(place, rest)?;
    let (_comma, rest) = cursor::expect(rest, b",")?;
    let (second, rest) = expression(place, rest)?;
    let (_close, rest) = cursor::expect(rest, b")")?;
    Ok(((first, second), rest))
}

/// A name, or a call.
#[cycle(phrase)]
fn name_or_call<'a>(place: Place, tokens: &'a [Token<'a>]) -> Read<'a, Box<Expression>>
    ensures phrase { IsPartAt place (nth 3 (rule primary)) (IsPrimary place 3) (lexemes_of tokens.now) result }
    ensures shorter { IfOk result (λ x. length x.1.now < length tokens.now) }
{
    let (token, rest) = cursor::expect_name(tokens)?;
    let target = leaf::target(place.alloc, token)?;
    let Some((_open, rest)) = cursor::accept(rest, b"(") else {
        return Ok((node::variable(place, target)?, rest));
    };
    let (list, rest) = arguments(place, rest)?;
    let (_close, rest) = cursor::expect(rest, b")")?;
    Ok((node::call(place, target.name, list, target.site)?, rest))
}

/// `dim` or `shape` of an expression.
#[cycle(phrase)]
fn builtin<'a>(place: Place, tokens: &'a [Token<'a>]) -> Read<'a, Box<Expression>>
    ensures phrase { IsPartAt place (nth 4 (rule primary)) (IsPrimary place 4) (lexemes_of tokens.now) result }
    ensures shorter { IfOk result (λ x. length x.1.now < length tokens.now) }
{
    let ((builtin, site), rest) = leaf::builtin_word(tokens)?;
    let (inner, rest) = parens(place, rest)?;
    Ok((node::builtin(place, builtin, inner, site)?, rest))
}

#[cycle(phrase)]
fn reshape<'a>(place: Place, tokens: &'a [Token<'a>]) -> Read<'a, Box<Expression>>
    ensures phrase { IsPartAt place (nth 5 (rule primary)) (IsPrimary place 5) (lexemes_of tokens.now) result }
    ensures shorter { IfOk result (λ x. length x.1.now < length tokens.now) }
{
    let (word, rest) = cursor::expect(tokens, b"reshape")?;
    let ((shape, array), rest) = pair(place, rest)?;
    Ok((node::reshape(place, shape, array, word.site)?, rest))
}

/// `min` or `max` of two expressions.
#[cycle(phrase)]
fn extreme<'a>(place: Place, tokens: &'a [Token<'a>]) -> Read<'a, Box<Expression>>
    ensures phrase { IsPartAt place (nth 6 (rule primary)) (IsPrimary place 6) (lexemes_of tokens.now) result }
    ensures shorter { IfOk result (λ x. length x.1.now < length tokens.now) }
{
    let Some((op, site, rest)) = cursor::operator(&level::EXTREMES, tokens) else {
        return Err(Halt::Stuck(tokens));
    };
    let ((left, right), rest) = pair(place, rest)?;
    Ok((node::binary(place, op, left, right, site)?, rest))
}

/// Elements in brackets.
#[cycle(phrase)]
fn array<'a>(place: Place, tokens: &'a [Token<'a>]) -> Read<'a, Box<Expression>>
    ensures phrase { IsPartAt place (nth 8 (rule primary)) (IsPrimary place 8) (lexemes_of tokens.now) result }
    ensures shorter { IfOk result (λ x. length x.1.now < length tokens.now) }
{
    let (open, rest) = cursor::expect(tokens, b"[")?;
    let (list, rest) = arguments(place, rest)?;
    let (_close, rest) = cursor::expect(rest, b"]")?;
    Ok((node::literal(place, list, open.site)?, rest))
}

#[cycle(phrase)]
fn with_loop<'a>(place: Place, tokens: &'a [Token<'a>]) -> Read<'a, Box<Expression>>
    ensures phrase { IsPartAt place (nth 9 (rule primary)) (IsPrimary place 9) (lexemes_of tokens.now) result }
    ensures shorter { IfOk result (λ x. length x.1.now < length tokens.now) }
{
    let (word, rest) = cursor::expect(tokens, b"with")?;
    let (_open, rest) = cursor::expect(rest, b"{")?;
    let (generators, rest) = generators(place, rest)?;
    let (_close, rest) = cursor::expect(rest, b"}")?;
    let (_colon, rest) = cursor::expect(rest, b":")?;
    let (operation, rest) = operation(place, rest)?;
    Ok((
        node::with_loop(place, generators, operation, word.site)?,
        rest,
    ))
}

/// A primary expression, which may be too high for its place by its last node.
#[cycle(phrase)]
fn alternative<'a>(place: Place, tokens: &'a [Token<'a>]) -> Read<'a, Box<Expression>>
    ensures phrase { IsNodeAt place primary (IsPrimaryOf place) (lexemes_of tokens.now) result }
    ensures shorter { IfOk result (λ x. length x.1.now < length tokens.now) }
{
    let inner = place.inside();
    if cursor::starts_number(tokens) {
        leaf::number(place, tokens)
    } else if cursor::starts_with(tokens, b"true") {
        leaf::truth_true(place, tokens)
    } else if cursor::starts_with(tokens, b"false") {
        leaf::truth_false(place, tokens)
    } else if cursor::starts_name(tokens) {
        name_or_call(inner, tokens)
    } else if cursor::starts_with_any(tokens, &leaf::BUILTINS) {
        builtin(inner, tokens)
    } else if cursor::starts_with(tokens, b"reshape") {
        reshape(inner, tokens)
    } else if cursor::starts_with_any(tokens, &leaf::EXTREMES) {
        extreme(inner, tokens)
    } else if cursor::starts_with(tokens, b"(") {
        parens(place, tokens)
    } else if cursor::starts_with(tokens, b"[") {
        array(inner, tokens)
    } else {
        with_loop(inner, tokens)
    }
}

#[cycle(phrase)]
fn primary<'a>(place: Place, tokens: &'a [Token<'a>]) -> Read<'a, Box<Expression>>
    ensures phrase { IsPhraseAt place primary unboxed height (lexemes_of tokens.now) result }
    ensures shorter { IfOk result (λ x. length x.1.now < length tokens.now) }
{
    if place.has_no_room(leaf::least_parts(tokens)) {
        return Err(Halt::High(tokens));
    }
    let (node, rest) = alternative(place, tokens)?;
    place::kept(place, node, rest)
}

/// An expression with selections behind it.
#[cycle(phrase)]
fn postfix<'a>(place: Place, tokens: &'a [Token<'a>]) -> Read<'a, Box<Expression>>
    ensures phrase { IsPhraseAt place postfix unboxed height (lexemes_of tokens.now) result }
    ensures shorter { IfOk result (λ x. length x.1.now < length tokens.now) }
{
    let (mut array, mut rest) = primary(place, tokens)?;
    while let Some((open, behind)) = cursor::accept(rest, b"[") {
        if place.has_no_room(array.height) {
            return Err(Halt::High(rest));
        }
        let (index, after) = indices(place.inside(), behind)?;
        let (_close, after) = cursor::expect(after, b"]")?;
        let index = node::index_of(place, index, open.site)?;
        array = node::select(place, array, index, open.site)?;
        rest = after;
    }
    place::kept(place, array, rest)
}

#[cycle(phrase)]
fn prefix<'a>(place: Place, tokens: &'a [Token<'a>]) -> Read<'a, Box<Expression>>
    ensures phrase { IsPhraseAt place prefix unboxed height (lexemes_of tokens.now) result }
    ensures shorter { IfOk result (λ x. length x.1.now < length tokens.now) }
{
    let Some((op, site, behind)) = cursor::operator(&level::PREFIX, tokens) else {
        return postfix(place, tokens);
    };
    if place.has_no_room(1) {
        return Err(Halt::High(tokens));
    }
    let (inner, rest) = prefix(place.inside(), behind)?;
    Ok((node::unary(place, op, inner, site)?, rest))
}

/// An operand of a level.
#[cycle(phrase)]
fn operand<'a>(place: Place, level: Level, tokens: &'a [Token<'a>]) -> Read<'a, Box<Expression>>
    ensures phrase { IsOperandAt level place (lexemes_of tokens.now) result }
    ensures shorter { IfOk result (λ x. length x.1.now < length tokens.now) }
{
    match level {
        Level::Disjunction => chain(place, Level::Conjunction, tokens),
        Level::Conjunction => chain(place, Level::Equality, tokens),
        Level::Equality => chain(place, Level::Comparison, tokens),
        Level::Comparison => chain(place, Level::Sum, tokens),
        Level::Sum => chain(place, Level::Product, tokens),
        Level::Product => prefix(place, tokens),
    }
}

/// Operands of a level with its operators between them, grouped to the left.
#[cycle(phrase)]
fn chain<'a>(place: Place, level: Level, tokens: &'a [Token<'a>]) -> Read<'a, Box<Expression>>
    ensures phrase { IsLevelAt level place (lexemes_of tokens.now) result }
    ensures shorter { IfOk result (λ x. length x.1.now < length tokens.now) }
{
    let (mut left, mut rest) = operand(place, level, tokens)?;
    while let Some((op, site, behind)) = level::operator(level, rest) {
        if place.has_no_room(left.height) {
            return Err(Halt::High(rest));
        }
        let (right, after) = operand(place.inside(), level, behind)?;
        left = node::binary(place, op, left, right, site)?;
        rest = after;
    }
    place::kept(place, left, rest)
}

/// An expression: an operand of the loosest level, or a choice between two expressions by it.
#[cycle(phrase)]
fn expression<'a>(place: Place, tokens: &'a [Token<'a>]) -> Read<'a, Box<Expression>>
    ensures phrase { IsPhraseAt place expression unboxed height (lexemes_of tokens.now) result }
    ensures shorter { IfOk result (λ x. length x.1.now < length tokens.now) }
{
    let (cond, rest) = chain(place, Level::Disjunction, tokens)?;
    let Some((sign, behind)) = cursor::accept(rest, b"?") else {
        return Ok((cond, rest));
    };
    if place.has_no_room(cond.height) {
        return Err(Halt::High(rest));
    }
    let (yes, rest) = expression(place.inside(), behind)?;
    let (_colon, rest) = cursor::expect(rest, b":")?;
    let (no, rest) = expression(place.inside(), rest)?;
    place::kept(place, node::choice(place, cond, yes, no, sign.site)?, rest)
}

// ---- with-loops

/// The generators of a with-loop.
#[cycle(phrase)]
fn generators<'a>(place: Place, tokens: &'a [Token<'a>]) -> Read<'a, Vec<Generator>>
    ensures phrase { IsPartAt place (many (ref generator)) (IsGenerators place) (lexemes_of tokens.now) result }
    ensures shorter { IfOk result (λ x. length x.1.now ≤ length tokens.now) }
{
    let mut found = Vec::new(place.alloc);
    let mut height = 0u32;
    let (_read, mut rest) = tokens.split_at(0);
    while cursor::starts_with(rest, b"(") {
        let (next, after) = generator(place.inside(), rest)?;
        height = height.max(next.height);
        found.push(next.tree)?;
        rest = after;
    }
    Ok((
        Measured {
            tree: found,
            height,
        },
        rest,
    ))
}

#[cycle(phrase)]
fn generator<'a>(place: Place, tokens: &'a [Token<'a>]) -> Read<'a, Generator>
    ensures phrase { IfOk result (λ x. Found generator (lexemes_of tokens.now) (view.generator x.0.tree) (lexemes_of x.1.now)) }
    ensures near { IfOk result (λ x. IsNear place x.0.height (gen_height (view.generator x.0.tree))) }
    ensures halt { IfErr result (StopsAround place (lexemes_of tokens.now)) }
    ensures shorter { IfOk result (λ x. length x.1.now < length tokens.now) }
{
    let (open, rest) = cursor::expect(tokens, b"(")?;
    let (lower, rest) = bound(place, rest)?;
    let (lower_closed, rest) = leaf::relation(rest)?;
    let (index, rest) = leaf::index(place.alloc, rest)?;
    let (upper_closed, rest) = leaf::relation(rest)?;
    let (upper, rest) = bound(place, rest)?;
    let (step, rest) = maybe_sum(place, b"step", rest)?;
    let (width, rest) = maybe_sum(place, b"width", rest)?;
    let (_close, rest) = cursor::expect(rest, b")")?;
    let (body, rest) = maybe_block(place, rest)?;
    let (_colon, rest) = cursor::expect(rest, b":")?;
    let (cell, rest) = expression(place, rest)?;
    let (_end, rest) = cursor::expect(rest, b";")?;
    let height = lower.height.max(
        upper.height.max(
            step.height
                .max(width.height.max(body.height.max(cell.height))),
        ),
    );
    let tree = Generator {
        lower: lower.tree,
        lower_closed,
        index,
        upper: upper.tree,
        upper_closed,
        step: step.tree,
        width: width.tree,
        body: body.tree,
        cell: Box::into_inner(cell.tree),
        site: open.site,
    };
    Ok((
        Measured {
            tree,
            height: place::node_height(height),
        },
        rest,
    ))
}

#[cycle(phrase)]
fn bound<'a>(place: Place, tokens: &'a [Token<'a>]) -> Read<'a, Bound>
    ensures phrase { IsPhraseAt place bound view.bound bound_height (lexemes_of tokens.now) result }
    ensures shorter { IfOk result (λ x. length x.1.now < length tokens.now) }
{
    if let Some((dot, rest)) = cursor::accept(tokens, b".") {
        return place::kept(place, node::dot(dot.site), rest);
    }
    let (value, rest) = chain(place, Level::Sum, tokens)?;
    Ok((node::given(value), rest))
}

/// A word and a sum behind it, or nothing.
#[cycle(phrase)]
fn maybe_sum<'a>(place: Place, word: &[u8], tokens: &'a [Token<'a>]) -> Read<'a, Option<Expression>>
    ensures phrase { IsPartAt place (opt (seq (sign word.now) (ref sum))) (IsMaybe place) (lexemes_of tokens.now) result }
    ensures shorter { IfOk result (λ x. length x.1.now ≤ length tokens.now) }
{
    let Some((_word, rest)) = cursor::accept(tokens, word) else {
        return Ok((leaf::absent(), tokens));
    };
    let (value, rest) = chain(place, Level::Sum, rest)?;
    Ok((leaf::present(value), rest))
}

/// A comma and an expression behind it, or nothing.
#[cycle(phrase)]
fn maybe_default<'a>(place: Place, tokens: &'a [Token<'a>]) -> Read<'a, Option<Expression>>
    ensures phrase { IsPartAt place (opt (seq (sign (codes ",")) (ref expression))) (IsMaybe place) (lexemes_of tokens.now) result }
    ensures shorter { IfOk result (λ x. length x.1.now ≤ length tokens.now) }
{
    let Some((_comma, rest)) = cursor::accept(tokens, b",") else {
        return Ok((leaf::absent(), tokens));
    };
    let (value, rest) = expression(place, rest)?;
    Ok((leaf::present(value), rest))
}

#[cycle(phrase)]
fn genarray<'a>(place: Place, tokens: &'a [Token<'a>]) -> Read<'a, Operation>
    ensures phrase { IsPartAt place (nth 0 (rule operation)) (IsOperation place 0) (lexemes_of tokens.now) result }
    ensures shorter { IfOk result (λ x. length x.1.now < length tokens.now) }
{
    let (word, rest) = cursor::expect(tokens, b"genarray")?;
    let (_open, rest) = cursor::expect(rest, b"(")?;
    let (shape, rest) = expression(place, rest)?;
    let (default, rest) = maybe_default(place, rest)?;
    let (_close, rest) = cursor::expect(rest, b")")?;
    Ok((node::genarray(shape, default, word.site), rest))
}

#[cycle(phrase)]
fn modarray<'a>(place: Place, tokens: &'a [Token<'a>]) -> Read<'a, Operation>
    ensures phrase { IsPartAt place (nth 1 (rule operation)) (IsOperation place 1) (lexemes_of tokens.now) result }
    ensures shorter { IfOk result (λ x. length x.1.now < length tokens.now) }
{
    let (word, rest) = cursor::expect(tokens, b"modarray")?;
    let (array, rest) = parens(place, rest)?;
    Ok((node::modarray(array, word.site), rest))
}

#[cycle(phrase)]
fn fold<'a>(place: Place, tokens: &'a [Token<'a>]) -> Read<'a, Operation>
    ensures phrase { IsPartAt place (nth 2 (rule operation)) (IsOperation place 2) (lexemes_of tokens.now) result }
    ensures shorter { IfOk result (λ x. length x.1.now < length tokens.now) }
{
    let (word, rest) = cursor::expect(tokens, b"fold")?;
    let (_open, rest) = cursor::expect(rest, b"(")?;
    let Some((op, _site, behind)) = cursor::operator(&level::FOLDS, rest) else {
        return Err(Halt::Stuck(rest));
    };
    let (_comma, rest) = cursor::expect(behind, b",")?;
    let (neutral, rest) = expression(place, rest)?;
    let (_close, rest) = cursor::expect(rest, b")")?;
    Ok((node::fold(op, neutral, word.site), rest))
}

#[cycle(phrase)]
fn operation<'a>(place: Place, tokens: &'a [Token<'a>]) -> Read<'a, Operation>
    ensures phrase { IsPhraseNear place operation view.operation operation_height (lexemes_of tokens.now) result }
    ensures shorter { IfOk result (λ x. length x.1.now < length tokens.now) }
{
    let inner = place.inside();
    if cursor::starts_with(tokens, b"genarray") {
        genarray(inner, tokens)
    } else if cursor::starts_with(tokens, b"modarray") {
        modarray(inner, tokens)
    } else {
        fold(inner, tokens)
    }
}

// ---- statements

/// Statements, one after another.
#[cycle(phrase)]
pub fn statements<'a>(place: Place, tokens: &'a [Token<'a>]) -> Read<'a, Vec<Statement>>
    ensures phrase { IsPartAt place (many (ref statement)) (IsStatements place) (lexemes_of tokens.now) result }
    ensures shorter { IfOk result (λ x. length x.1.now ≤ length tokens.now) }
{
    let mut found = Vec::new(place.alloc);
    let mut height = 0u32;
    let (_read, mut rest) = tokens.split_at(0);
    while leaf::starts_statement(rest) {
        let (mut next, after) = statement(place, rest)?;
        height = height.max(next.height);
        found.append(&mut next.tree)?;
        rest = after;
    }
    Ok((
        Measured {
            tree: found,
            height,
        },
        rest,
    ))
}

#[cycle(phrase)]
fn block<'a>(place: Place, tokens: &'a [Token<'a>]) -> Read<'a, Vec<Statement>>
    ensures phrase { IsBlockAt place block itself (lexemes_of tokens.now) result }
    ensures shorter { IfOk result (λ x. length x.1.now < length tokens.now) }
{
    let (_open, rest) = cursor::expect(tokens, b"{")?;
    let (body, rest) = statements(place, rest)?;
    let (_close, rest) = cursor::expect(rest, b"}")?;
    Ok((body, rest))
}

/// The block of a generator, or none.
#[cycle(phrase)]
fn maybe_block<'a>(place: Place, tokens: &'a [Token<'a>]) -> Read<'a, Vec<Statement>>
    ensures phrase { IsPartAt place (opt (ref block)) (IsBlockOf place) (lexemes_of tokens.now) result }
    ensures shorter { IfOk result (λ x. length x.1.now ≤ length tokens.now) }
{
    if cursor::starts_with(tokens, b"{") {
        return block(place, tokens);
    }
    Ok((
        Measured {
            tree: Vec::new(place.alloc),
            height: 0,
        },
        tokens,
    ))
}

/// An assignment and its semicolon.
#[cycle(phrase)]
fn assignment<'a>(place: Place, tokens: &'a [Token<'a>]) -> Read<'a, Vec<Statement>>
    ensures phrase { IsPartAt place (nth 0 (rule statement)) (IsStatement place 0) (lexemes_of tokens.now) result }
    ensures shorter { IfOk result (λ x. length x.1.now < length tokens.now) }
{
    let (node, rest) = assign(place, tokens)?;
    let one = leaf::one(place, node)?;
    let (_end, rest) = cursor::expect(rest, b";")?;
    Ok((one, rest))
}

#[cycle(phrase)]
fn conditional<'a>(place: Place, tokens: &'a [Token<'a>]) -> Read<'a, Vec<Statement>>
    ensures phrase { IsPartAt place (nth 1 (rule statement)) (IsStatement place 1) (lexemes_of tokens.now) result }
    ensures shorter { IfOk result (λ x. length x.1.now < length tokens.now) }
{
    let (node, rest) = if_statement(place, tokens)?;
    Ok((leaf::one(place, node)?, rest))
}

#[cycle(phrase)]
fn while_loop<'a>(place: Place, tokens: &'a [Token<'a>]) -> Read<'a, Vec<Statement>>
    ensures phrase { IsPartAt place (nth 2 (rule statement)) (IsStatement place 2) (lexemes_of tokens.now) result }
    ensures shorter { IfOk result (λ x. length x.1.now < length tokens.now) }
{
    let (word, rest) = cursor::expect(tokens, b"while")?;
    let (cond, rest) = parens(place, rest)?;
    let (body, rest) = block(place, rest)?;
    Ok((
        leaf::one(place, node::while_do(cond, body, word.site))?,
        rest,
    ))
}

#[cycle(phrase)]
fn do_loop<'a>(place: Place, tokens: &'a [Token<'a>]) -> Read<'a, Vec<Statement>>
    ensures phrase { IsPartAt place (nth 3 (rule statement)) (IsStatement place 3) (lexemes_of tokens.now) result }
    ensures shorter { IfOk result (λ x. length x.1.now < length tokens.now) }
{
    let (word, rest) = cursor::expect(tokens, b"do")?;
    let (body, rest) = block(place, rest)?;
    let (test, rest) = cursor::expect(rest, b"while")?;
    let (cond, rest) = parens(place, rest)?;
    let (_end, rest) = cursor::expect(rest, b";")?;
    Ok((
        leaf::one(place, node::do_while(body, cond, word.site, test.site))?,
        rest,
    ))
}

/// A `for`: its first assignment, and a `while` whose body ends with the last one and needs room for it.
#[cycle(phrase)]
fn for_loop<'a>(place: Place, tokens: &'a [Token<'a>]) -> Read<'a, Vec<Statement>>
    ensures phrase { IsPartSo place (nth 4 (rule statement)) (IsStatement place 4) (ForOver place.depth) (lexemes_of tokens.now) result }
    ensures shorter { IfOk result (λ x. length x.1.now < length tokens.now) }
{
    let (word, rest) = cursor::expect(tokens, b"for")?;
    if place.has_no_room(2) {
        return Err(Halt::High(tokens));
    }
    let inner = place.inside();
    let (_open, rest) = cursor::expect(rest, b"(")?;
    let (start, rest) = assign(place, rest)?;
    let (_end, rest) = cursor::expect(rest, b";")?;
    let (cond, rest) = expression(inner, rest)?;
    let (_end, rest) = cursor::expect(rest, b";")?;
    let (step, rest) = assign(inner, rest)?;
    let (_close, rest) = cursor::expect(rest, b")")?;
    let (body, rest) = block(inner, rest)?;
    Ok((
        leaf::for_loop(place, start, cond, step, body, word.site)?,
        rest,
    ))
}

/// A statement, which may be too high for its place by its last node.
#[cycle(phrase)]
fn any_statement<'a>(place: Place, tokens: &'a [Token<'a>]) -> Read<'a, Vec<Statement>>
    ensures phrase { IsNodeAt place statement (IsStatementOf place) (lexemes_of tokens.now) result }
    ensures shorter { IfOk result (λ x. length x.1.now < length tokens.now) }
{
    let inner = place.inside();
    if cursor::starts_name(tokens) {
        assignment(place, tokens)
    } else if cursor::starts_with(tokens, b"if") {
        conditional(place, tokens)
    } else if cursor::starts_with(tokens, b"while") {
        while_loop(inner, tokens)
    } else if cursor::starts_with(tokens, b"do") {
        do_loop(inner, tokens)
    } else {
        for_loop(place, tokens)
    }
}

#[cycle(phrase)]
fn statement<'a>(place: Place, tokens: &'a [Token<'a>]) -> Read<'a, Vec<Statement>>
    ensures phrase { IsBlockAt place statement itself (lexemes_of tokens.now) result }
    ensures shorter { IfOk result (λ x. length x.1.now < length tokens.now) }
{
    if place.has_no_room(1) {
        return Err(Halt::High(tokens));
    }
    let (node, rest) = any_statement(place, tokens)?;
    place::kept(place, node, rest)
}

#[cycle(phrase)]
fn if_statement<'a>(place: Place, tokens: &'a [Token<'a>]) -> Read<'a, Statement>
    ensures phrase { IsPhraseAt place if_statement view.stmt stmt_height (lexemes_of tokens.now) result }
    ensures shorter { IfOk result (λ x. length x.1.now < length tokens.now) }
{
    if place.has_no_room(1) {
        return Err(Halt::High(tokens));
    }
    let inner = place.inside();
    let (word, rest) = cursor::expect(tokens, b"if")?;
    let (cond, rest) = parens(inner, rest)?;
    let (yes, rest) = block(place.inside(), rest)?;
    let (no, rest) = maybe_else(place.inside(), rest)?;
    place::kept(place, node::if_else(cond, yes, no, word.site), rest)
}

/// What stands behind an `else`, or nothing.
#[cycle(phrase)]
fn maybe_else<'a>(place: Place, tokens: &'a [Token<'a>]) -> Read<'a, Vec<Statement>>
    ensures phrase { IsPartAt place (opt (seq (sign (codes "else")) (ref else_branch))) (IsElse place) (lexemes_of tokens.now) result }
    ensures shorter { IfOk result (λ x. length x.1.now ≤ length tokens.now) }
{
    let Some((_else, rest)) = cursor::accept(tokens, b"else") else {
        return Ok((
            Measured {
                tree: Vec::new(place.alloc),
                height: 0,
            },
            tokens,
        ));
    };
    else_branch(place, rest)
}

#[cycle(phrase)]
fn else_branch<'a>(place: Place, tokens: &'a [Token<'a>]) -> Read<'a, Vec<Statement>>
    ensures phrase { IsBlockAt place else_branch itself (lexemes_of tokens.now) result }
    ensures shorter { IfOk result (λ x. length x.1.now < length tokens.now) }
{
    if cursor::starts_with(tokens, b"{") {
        return block(place, tokens);
    }
    let (node, rest) = if_statement(place, tokens)?;
    Ok((leaf::one(place, node)?, rest))
}

/// The right side of an assignment of one or more targets.
#[cycle(phrase)]
fn several<'a>(place: Place, token: Token<'a>, tokens: &'a [Token<'a>]) -> Read<'a, Statement>
    requires { is_name token.text.now ≡ true }
    ensures phrase { IsPartAt place (nth 0 AssignRest) (IsAssigned place (lexeme token.entry) 0) (lexemes_of tokens.now) result }
    ensures shorter { IfOk result (λ x. length x.1.now < length tokens.now) }
{
    let (targets, rest) = leaf::targets(place.alloc, token, tokens)?;
    let (_sign, rest) = cursor::expect(rest, b"=")?;
    let (value, rest) = expression(place, rest)?;
    Ok((node::assign(targets, value), rest))
}

/// What stands behind the name of a replacement.
#[cycle(phrase)]
fn replacement<'a>(place: Place, token: Token<'a>, tokens: &'a [Token<'a>]) -> Read<'a, Statement>
    requires { is_name token.text.now ≡ true }
    ensures phrase { IsPartSo place (nth 1 AssignRest) (IsAssigned place (lexeme token.entry) 1) (ReplaceOver place.depth) (lexemes_of tokens.now) result }
    ensures shorter { IfOk result (λ x. length x.1.now < length tokens.now) }
{
    let (open, rest) = cursor::expect(tokens, b"[")?;
    let (index, rest) = indices(place, rest)?;
    let (_close, rest) = cursor::expect(rest, b"]")?;
    let (_sign, rest) = cursor::expect(rest, b"=")?;
    let (value, rest) = expression(place, rest)?;
    let target = leaf::target(place.alloc, token)?;
    let index = node::index_of(place, index, open.site)?;
    Ok((node::replace(target, open.site, index, value), rest))
}

/// What stands behind the name of an assignment with an operator.
#[cycle(phrase)]
fn compound<'a>(place: Place, token: Token<'a>, tokens: &'a [Token<'a>]) -> Read<'a, Statement>
    requires { is_name token.text.now ≡ true }
    ensures phrase { IsPartAt place (nth 2 AssignRest) (IsAssigned place (lexeme token.entry) 2) (lexemes_of tokens.now) result }
    ensures shorter { IfOk result (λ x. length x.1.now < length tokens.now) }
{
    let Some((op, site, rest)) = cursor::operator(&level::COMPOUND, tokens) else {
        return Err(Halt::Stuck(tokens));
    };
    let (value, rest) = expression(place, rest)?;
    Ok((leaf::update(place, token, op, value, site)?, rest))
}

/// What stands behind the name of an assignment, which may be too high for its place by its last node.
#[cycle(phrase)]
fn assigned<'a>(place: Place, token: Token<'a>, tokens: &'a [Token<'a>]) -> Read<'a, Statement>
    requires { is_name token.text.now ≡ true }
    ensures phrase { IsRestAt place (lexeme token.entry) (lexemes_of tokens.now) result }
    ensures shorter { IfOk result (λ x. length x.1.now < length tokens.now) }
{
    let inner = place.inside();
    if cursor::starts_with_any(tokens, &leaf::SEVERAL) {
        several(inner, token, tokens)
    } else if cursor::starts_with(tokens, b"[") {
        replacement(inner, token, tokens)
    } else if place.has_no_room(2) {
        Err(Halt::High(tokens))
    } else if cursor::starts_with_any(tokens, &leaf::COMPOUND) {
        compound(inner.inside(), token, tokens)
    } else {
        leaf::step(place, token, tokens)
    }
}

#[cycle(phrase)]
fn assign<'a>(place: Place, tokens: &'a [Token<'a>]) -> Read<'a, Statement>
    ensures phrase { IsPhraseAt place assign view.stmt stmt_height (lexemes_of tokens.now) result }
    ensures shorter { IfOk result (λ x. length x.1.now < length tokens.now) }
{
    let (token, rest) = cursor::expect_name(tokens)?;
    let (node, rest) = assigned(place, token, rest)?;
    place::kept(place, node, rest)
}

ghost use Rattle.std.specs.Prelude.{◌≡◌, ◌≤◌, [], Some, IfOk, length};
ghost use Rattle.sac_base.specs.Arrays.{MOST};
ghost use Rattle.data_text.specs.Pieces.{pieces};
ghost use Rattle.data_text.specs.Lines.{base_at, line_value};
ghost use Rattle.data_text.specs.Rows.{keep_shape, keep_extents, keep_colon, judged_rows, judged_cells, judged_sized, rows_value};
ghost use Rattle.data_text.specs.Tokens.{base_from, row_from};

use crate::error::DataCode;
use crate::number::{base_named, element, extent};
use crate::row::Row;
use crate::token::{Token, next_token};
use sac_base::{Array, Base, Cell, Memory, Shape, elements};
use std::alloc::Global;

// The most extents and elements of an array.
const MOST_EXTENTS: usize = 8;

const MOST_ELEMENTS: usize = 16_777_216;

// The base and the `[` at the front of a line, and what follows them.
fn read_base(line: &[u8]) -> Option<(Base, &[u8])>
    ensures { base_from result ≡ base_at (pieces line.now) }
{
    let (Token::Word(word), rest) = next_token(line)? else {
        return None;
    };
    let base = base_named(word)?;
    let (Token::Open, rest) = next_token(rest)? else {
        return None;
    };
    Some((base, rest))
}

// The extents up to the `]`, and what follows it.
fn read_shape(alloc: Global, text: &[u8]) -> Result<Option<(Row, &[u8])>, Memory>
    ensures { IfOk result (λ read. row_from read ≡ keep_shape (pieces text.now)) }
{
    match next_token(text) {
        Some((Token::Close, rest)) => Ok(Some((Row::new(alloc), rest))),
        _ => read_extents(alloc, text),
    }
}

// One or more extents up to the `]`, and what follows it.
fn read_extents(alloc: Global, text: &[u8]) -> Result<Option<(Row, &[u8])>, Memory>
    ensures { IfOk result (λ read. row_from read ≡ keep_extents (Some []) (pieces text.now)) }
{
    let mut row = Row::new(alloc);
    let mut rest = text;
    loop {
        let Some((Token::Word(word), after)) = next_token(rest) else {
            return Ok(None);
        };
        let Some(extent) = extent(word) else {
            return Ok(None);
        };
        row.keep(MOST_EXTENTS, extent)?;
        match next_token(after) {
            Some((Token::Comma, after)) => rest = after,
            Some((Token::Close, after)) => return Ok(Some((row, after))),
            _ => return Ok(None),
        }
    }
}

// The `:` at the front of a text, and the elements that follow it up to the end.
fn read_elements(alloc: Global, base: Base, text: &[u8]) -> Result<Option<Row>, Memory>
    ensures { IfOk result (λ read. read ≡ keep_colon base (pieces text.now)) }
{
    let Some((Token::Colon, after)) = next_token(text) else {
        return Ok(None);
    };
    let mut row = Row::new(alloc);
    let mut rest = after;
    while let Some((token, after)) = next_token(rest) {
        let Token::Word(word) = token else {
            return Ok(None);
        };
        let Some(element) = element(base, word) else {
            return Ok(None);
        };
        row.keep(MOST_ELEMENTS, element)?;
        rest = after;
    }
    Ok(Some(row))
}

// The array of this shape with these cells for a parameter of this base, or why they are refused.
fn judge_sized(
    base: Base,
    line_base: Base,
    shape: Shape,
    cells: Vec<Cell>,
) -> Result<Array, DataCode>
    requires { length cells.items ≤ MOST }
    ensures { result ≡ judged_sized base line_base shape cells.items }
{
    let Some(size) = elements(&shape) else {
        return Err(DataCode::I4);
    };
    if cells.len() as u64 != size {
        return Err(DataCode::I4);
    }
    if line_base != base {
        return Err(DataCode::I5);
    }
    Ok(Array::new(line_base, shape, cells))
}

// The array of these numbers for a parameter of this base, or why they are refused.
fn judge_cells(
    alloc: Global,
    base: Base,
    line_base: Base,
    extents: &[Cell],
    cells: Vec<Cell>,
) -> Result<Array, DataCode>
    ensures { result ≡ judged_cells base line_base extents.now cells.items }
{
    if cells.len() > MOST_ELEMENTS {
        return Err(DataCode::I6);
    }
    let Some(shape) = Shape::from_extents(alloc, extents) else {
        return Err(DataCode::I6);
    };
    judge_sized(base, line_base, shape, cells)
}

// The array of these extents and elements for a parameter of this base, or why they are refused.
fn judge(
    alloc: Global,
    base: Base,
    line_base: Base,
    extents: Row,
    cells: Row,
) -> Result<Array, DataCode>
    ensures { result ≡ judged_rows base line_base extents cells }
{
    let (Some(extents), Some(cells)) = (extents.into_cells(), cells.into_cells()) else {
        return Err(DataCode::I3);
    };
    judge_cells(alloc, base, line_base, extents.as_slice(), cells)
}

// The array that a line gives, from its parts.
fn read_parts(alloc: Global, line: &[u8], base: Base) -> Result<Result<Array, DataCode>, Memory>
    ensures { IfOk result (λ read. read ≡ rows_value base (pieces line.now)) }
{
    let Some((line_base, rest)) = read_base(line) else {
        return Ok(Err(DataCode::I1));
    };
    let Some((extents, rest)) = read_shape(alloc, rest)? else {
        return Ok(Err(DataCode::I1));
    };
    let Some(cells) = read_elements(alloc, line_base, rest)? else {
        return Ok(Err(DataCode::I1));
    };
    Ok(judge(alloc, base, line_base, extents, cells))
}

/// The array that a line gives for a parameter of this base, or why the line is refused.
#[tactic(auto, using(crate::proofs::JudgeFacts::rows_are))]
pub(crate) fn read_line(
    alloc: Global,
    line: &[u8],
    base: Base,
) -> Result<Result<Array, DataCode>, Memory>
    ensures { IfOk result (λ read. read ≡ line_value base line.now) }
{
    read_parts(alloc, line, base)
}

ghost use Rattle.std.specs.Prelude.{◌≡◌, ◌==◌, ◌+◌, ◌<◌, ◌≤◌, ◌^◌, ℕ, length, position, IfSome, IfOk};
ghost use Rattle.std.specs.List.{list_all};
ghost use Rattle.std.specs.Str.Lines.{strip_carriage_return};
ghost use Rattle.data_text.specs.Pieces.{is_blank as is_blank_byte};
ghost use Rattle.data_text.specs.Texts.{data_lines, with_line, arrays_of, text_value, is_passed_over as is_passed_over_line};
ghost use Rattle.data_text.specs.Typed.{AreArguments};
ghost use Rattle.data_text.specs.Found.{lines_from, Tells};

use crate::error::{DataCode, DataError};
use crate::line::read_line;
use crate::token::is_blank;
use sac_base::{Array, Base};
use std::alloc::Global;

// A line that is not passed over, its number and what follows it.
#[derive(Drop)]
struct Line<'a> {
    number: u64,
    line: &'a [u8],
    rest: &'a [u8],
}

// Where the first line of a text ends.
fn line_feed(text: &[u8]) -> Option<usize>
    ensures place { result ≡ position (λ b. b == 10) text.now }
    ensures within { IfSome result (λ end. end < length text.now) }
{
    text.iter().position(|byte| *byte == b'\n')
}

// The first line of a text without its line feed, and what follows that.
fn first_line(text: &[u8]) -> (&[u8], &[u8])
    requires { 0 < length text.now }
    ensures parts { (before : ℕ) → data_lines before text.now ≡ with_line before result.0.now (data_lines (before + 1) result.1.now) }
    ensures shorter { length result.1.now < length text.now }
{
    match line_feed(text) {
        Some(end) => (
            without_carriage_return(text.split_at(end).0),
            text.split_at(end + 1).1,
        ),
        None => (without_carriage_return(text), &[]),
    }
}

fn without_carriage_return(line: &[u8]) -> &[u8]
    ensures { result.now ≡ strip_carriage_return line.now }
{
    match line {
        [front @ .., b'\r'] => front,
        _ => line,
    }
}

#[tactic(auto, unfolding(crate::specs::Texts::is_passed_over))]
fn is_passed_over(line: &[u8]) -> bool
    ensures { result ≡ is_passed_over_line line.now }
{
    line.iter().all(|byte| is_blank(*byte))
}

// The first line of a text that is not passed over, where so many lines come before the text.
fn next_line(text: &[u8], before: u64) -> Option<Line<'_>>
    requires { before + length text.now < 2 ^ 64 }
    ensures lines { data_lines before text.now ≡ lines_from result }
    ensures bound { IfSome result (λ found. found.number + length found.rest.now < 2 ^ 64) }
    ensures later { IfSome result (λ found. before < found.number) }
    ensures shorter { IfSome result (λ found. length found.rest.now < length text.now) }
{
    let mut rest = text;
    let mut number = before;
    while !rest.is_empty() {
        let (line, after) = first_line(rest);
        number += 1;
        if !is_passed_over(line) {
            return Some(Line {
                number,
                line,
                rest: after,
            });
        }
        rest = after;
    }
    None
}

// How many lines of a text are not passed over.
fn count_lines(text: &[u8]) -> u64
    ensures { result ≡ length (data_lines 0 text.now) }
{
    let mut rest = text;
    let mut before = 0;
    let mut count: u64 = 0;
    while let Some(found) = next_line(rest, before) {
        count += 1;
        before = found.number;
        rest = found.rest;
    }
    count
}

// The arrays of the lines of a text, as far as there are bases.
fn read_lines(alloc: Global, text: &[u8], bases: &[Base]) -> Result<Vec<Array>, DataError>
    ensures { Tells result (arrays_of (data_lines 0 text.now) bases.now) }
{
    let mut arrays = Vec::new(alloc);
    let mut rest = text;
    let mut before = 0;
    for base in bases {
        let Some(found) = next_line(rest, before) else {
            break;
        };
        match read_line(alloc, found.line, *base)? {
            Ok(array) => arrays.push(array)?,
            Err(code) => return Err(DataError::Refused(code, found.number)),
        }
        before = found.number;
        rest = found.rest;
    }
    Ok(arrays)
}

// The arrays of a text, a line for each base.
fn read_all(alloc: Global, text: &[u8], bases: &[Base]) -> Result<Vec<Array>, DataError>
    ensures { Tells result (text_value text.now bases.now) }
{
    if count_lines(text) != bases.len() as u64 {
        return Err(DataError::Refused(DataCode::I2, 0));
    }
    read_lines(alloc, text, bases)
}

/// The arrays that a text gives, a line for each parameter of these bases.
///
/// Lines of spaces and tabs alone are passed over, and a carriage return at a line's end is dropped.
///
/// # Errors
///
/// `Refused` with `I2` and 0 where there are more or fewer lines than bases. Otherwise with the number of the first
/// line that is refused, from 1 and among all lines, and the first of `I1`, `I3`, `I6`, `I4` and `I5` that holds there.
pub fn read_arrays(alloc: Global, text: &[u8], bases: &[Base]) -> Result<Vec<Array>, DataError>
    ensures exact { Tells result (text_value text.now bases.now) }
    ensures arguments { IfOk result (λ arrays. AreArguments bases.now arrays.items) }
{
    read_all(alloc, text, bases)
}

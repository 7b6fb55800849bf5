ghost use Rattle.std.specs.Prelude.{◌≡◌, ◌<◌, ◌≤◌, min, length, option_map};
ghost use Rattle.data_text.specs.Numbers.{numeral as numeral_value, base_named as base_of_text};
ghost use Rattle.sac_base.specs.declared.base.Base.TheVariants.{Int, Bool as Truth};
ghost use Rattle.data_text.specs.Rows.{in_cell, extent_read, element_read};

use sac_base::{Base, Cell};

// More than the magnitude of any cell: greater magnitudes are not told apart.
const MOST_MAGNITUDE: u64 = 1 << 32;

/// The base that a word names.
pub(crate) fn base_named(word: &[u8]) -> Option<Base>
    ensures { result ≡ base_of_text word.now }
{
    if word == b"int".as_slice() {
        Some(Base::Int)
    } else if word == b"bool".as_slice() {
        Some(Base::Bool)
    } else {
        None
    }
}

// The number that digits stand for in base ten, or `MOST_MAGNITUDE` where it is greater.
fn magnitude(digits: &[u8]) -> Option<u64>
    ensures { result ≡ option_map (min MOST_MAGNITUDE) (numeral_value digits.now) }
{
    if digits.is_empty() {
        return None;
    }
    let mut value: u64 = 0;
    for digit in digits {
        if !digit.is_ascii_digit() {
            return None;
        }
        value = (10 * value + u64::from(*digit - b'0')).min(MOST_MAGNITUDE);
    }
    Some(value)
}

// A number, where it is a cell.
fn cell(number: i64) -> Option<Cell>
    ensures { result ≡ in_cell number }
{
    Cell::try_from(number).ok()
}

/// The extent that a word stands for, if it is one: its value, or `None` where that is above 2,147,483,647.
pub(crate) fn extent(word: &[u8]) -> Option<Option<Cell>>
    ensures { result ≡ extent_read word.now }
{
    let magnitude = magnitude(word)?;
    Some(cell(magnitude as i64))
}

// A whole number: digits with an optional minus sign.
fn integer(word: &[u8]) -> Option<Option<Cell>>
    ensures { result ≡ element_read Int word.now }
{
    match word {
        [b'-', digits @ ..] => Some(cell(-(magnitude(digits)? as i64))),
        _ => Some(cell(magnitude(word)? as i64)),
    }
}

/// The element of this base that a word stands for, if it is one: its value, or `None` where that is no cell.
pub(crate) fn element(base: Base, word: &[u8]) -> Option<Option<Cell>>
    ensures { result ≡ element_read base word.now }
{
    match base {
        Base::Int => integer(word),
        Base::Bool => truth(word),
    }
}

fn truth(word: &[u8]) -> Option<Option<Cell>>
    ensures { result ≡ element_read Truth word.now }
{
    if word == b"true".as_slice() {
        Some(Some(1))
    } else if word == b"false".as_slice() {
        Some(Some(0))
    } else {
        None
    }
}

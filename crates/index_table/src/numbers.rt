//! Numbers of literal values, added to the index or taken from it.

ghost use Rattle.std.specs.Prelude.{◌≡◌, IfOk, replicate};
ghost use Rattle.sac_base.specs.Parts.{numbers_of};
ghost use Rattle.core_loops.specs.Indices.{literal_list, only_number as only_number_of};
ghost use Rattle.index_table.specs.Numbers.{step, steps, items_of};

use sac_base::{Array, Memory};
use std::alloc::Global;

/// How a literal value changes the index.
#[derive(Clone, Copy, Debug, PartialEq, Eq)]
pub enum Change {
    /// The value is added.
    Added,
    /// The value is subtracted.
    Taken,
}

/// A number changed by another, in 32 bits.
pub fn changed(change: Change, number: i32, by: i32) -> i32
    ensures { result ≡ step change number by }
{
    match change {
        Change::Added => number.wrapping_add(by),
        Change::Taken => number.wrapping_sub(by),
    }
}

/// Numbers changed by others, place by place.
pub fn all_changed(
    alloc: Global,
    change: Change,
    numbers: &[i32],
    by: &[i32],
) -> Result<Vec<i32>, Memory>
    ensures { IfOk result (λ sums. sums.items ≡ steps change numbers.now by.now) }
{
    let mut sums = Vec::new(alloc);
    for k in 0..numbers.len().min(by.len()) {
        sums.push(changed(change, numbers[k], by[k]))?;
    }
    Ok(sums)
}

/// A literal value as so many numbers, where it is a vector of as many, or a number that stands for each of them.
pub fn literal_numbers(
    alloc: Global,
    count: usize,
    array: &Array,
) -> Result<Option<Vec<i32>>, Memory>
    ensures { IfOk result (λ numbers. items_of numbers ≡ literal_list count array.now) }
{
    if let Some(number) = array.as_scalar() {
        return Ok(Some(repeated(alloc, count, number)?));
    }
    if array.shape().rank() == 1 && array.cells().len() == count {
        return Ok(Some(Vec::from_slice(alloc, array.cells())?));
    }
    Ok(None)
}

fn repeated(alloc: Global, count: usize, number: i32) -> Result<Vec<i32>, Memory>
    ensures { IfOk result (λ numbers. numbers.items ≡ replicate count number) }
{
    let mut numbers = Vec::new(alloc);
    numbers.resize(count, number)?;
    Ok(numbers)
}

/// The one number of a literal value that is a number or a vector of one number, if it is not negative.
pub fn only_number(array: &Array) -> Option<u32>
    ensures { result ≡ only_number_of (numbers_of array.now) }
{
    if array.shape().rank() > 1 {
        return None;
    }
    match array.cells() {
        [number] => u32::try_from(*number).ok(),
        _ => None,
    }
}

//! What each function needs, level by level.

ghost use Rattle.std.specs.Prelude.{◌≡◌, ◌<◌, ◌≤◌, ℕ, IfOk, IfSome, IsTrue, IsFalse, false, length};
ghost use Rattle.counted_code.specs.View.{code_program};
ghost use Rattle.code_nesting.specs.Needs.{IsBound, IsClosed, IsClosedAt};

use crate::called::called_places;
use crate::walk::{block_need, need_at};
use counted_code::Code;
use sac_base::Memory;
use std::alloc::Global;

/// The most nested blocks of a cell that a worker computes. That the 8 MB of stack which a worker's thread has are room for
/// them is an assumption: a nested block takes about 5 KB of it, as measured, not proved.
pub const LIMIT: u32 = 1000;

/// How many blocks may nest in a call of each function where calls go at most `levels` deep, up to one more than the limit.
/// None where the inline calls within a level do not end, which those of accepted programs do.
///
/// # Errors
///
/// `Memory`: there is none for the tables.
pub fn needs_of(alloc: Global, code: &Code, levels: u64) -> Result<Option<Vec<u32>>, Memory>
    ensures { IfOk result (λ found. IfSome found (λ needs. IsBound (code_program code.now) levels needs.items)) }
{
    let functions = code.functions.len();
    let mut below = vec![in alloc; 0; functions]?;
    let mut here = vec![in alloc; 0; functions]?;
    pass_over_uncalled(alloc, code, &mut here)?;
    if !settle(code, &below, &mut here) {
        return Ok(None);
    }
    // Each round is a level more. One that changes something raises a number, and so the limit ends them early.
    for _level in 0..levels {
        if !keep(&mut below, &here) {
            return Ok(Some(here));
        }
        if !settle(code, &below, &mut here) {
            return Ok(None);
        }
    }
    Ok(Some(here))
}

// Puts more than the limit for each function that no call takes, as `main`, so that its body, which may be long, is not looked at for each level.
fn pass_over_uncalled(alloc: Global, code: &Code, here: &mut Vec<u32>) -> Result<(), Memory>
    ensures { length here.new.items ≡ length here.old.items }
{
    let called = called_places(alloc, code)?;
    for place in 0..here.len().min(called.len()) {
        if !called[place] {
            here[place] = LIMIT + 1;
        }
    }
    Ok(())
}

// Raises what each function needs at a level to what its body shows, where `below` is what they need at the level below it.
// Whether the last round has changed nothing. Where inline functions do not call one another in a circle it has not.
fn settle(code: &Code, below: &[u32], here: &mut Vec<u32>) -> bool
    requires sized { length here.old.items ≡ length code.now.functions.items }
    ensures sized { length here.new.items ≡ length here.old.items }
    ensures closed { IsTrue result → IsClosed (code_program code.now) below.now here.new.items }
{
    // Each round is an inline call more.
    for _round in 0..=code.functions.len() {
        if !raise(code, below, here) {
            return true;
        }
    }
    false
}

// A round of it. Whether some need has risen.
fn raise(code: &Code, below: &[u32], here: &mut Vec<u32>) -> bool
    requires sized { length here.old.items ≡ length code.now.functions.items }
    ensures sized { length here.new.items ≡ length here.old.items }
    ensures closed { result ≡ false → IsClosed (code_program code.now) below.now here.new.items }
{
    let mut risen = false;
    for place in 0..code.functions.len() {
        if raise_at(place, code, below, here) {
            risen = true;
        }
    }
    risen
}

// The same of the function at a place.
fn raise_at(place: usize, code: &Code, below: &[u32], here: &mut Vec<u32>) -> bool
    requires within { place < length code.now.functions.items }
    requires sized { length here.old.items ≡ length code.now.functions.items }
    ensures sized { length here.new.items ≡ length here.old.items }
    ensures kept { result ≡ false → here.new.items ≡ here.old.items }
    ensures closed { result ≡ false → IsClosedAt (code_program code.now) below.now here.old.items place }
{
    if need_at(place, here) > LIMIT {
        return false;
    }
    raise_body(place, code, below, here)
}

// The same by its body.
fn raise_body(place: usize, code: &Code, below: &[u32], here: &mut Vec<u32>) -> bool
    requires within { place < length code.now.functions.items }
    requires sized { length here.old.items ≡ length code.now.functions.items }
    ensures sized { length here.new.items ≡ length here.old.items }
    ensures kept { result ≡ false → here.new.items ≡ here.old.items }
    ensures closed { result ≡ false → IsClosedAt (code_program code.now) below.now here.old.items place }
{
    let need = block_need(&code.functions[place].body, code, below, here);
    if need <= here[place] {
        return false;
    }
    here[place] = need.min(LIMIT + 1);
    true
}

// Takes over the needs of a level. Whether some need is another one than before.
fn keep(below: &mut Vec<u32>, here: &[u32]) -> bool
    requires sized { length below.old.items ≡ length here.now }
    ensures kept { below.new.items ≡ here.now }
    ensures same { result ≡ false → below.old.items ≡ here.now }
{
    let changed = below.as_slice() != here;
    below.copy_from_slice(here);
    changed
}

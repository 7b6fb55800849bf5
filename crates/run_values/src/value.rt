//! Values of variables.

ghost use Rattle.std.specs.Prelude.{◌≡◌, ◌≤◌, length, map, unsigned_abs, IfOk, IfSome, is_some, nat_le, true, []};
ghost use Rattle.counted_code.specs.Values.{Small, is_small};
ghost use Rattle.sac_base.specs.Arrays.{size, vector};
ghost use Rattle.run_values.specs.Numbers.{numbers};
ghost use Rattle.run_values.specs.Shown.{value_of, base_of, shape_of, WordOf};

use crate::few::Few;
use buffer_heap::BufferId;
use sac_base::{Base, Cell, Memory, Shape};

/// A value of a variable.
#[derive(Clone, Copy, Debug)]
pub enum RunValue {
    /// That of a variable that is not bound: it reads as the number 0.
    Unbound,
    /// A scalar.
    Word(Base, Cell),
    /// A vector of at most 8 elements.
    Short(Base, Few),
    /// A reference to a buffer, with the base and the extents of its array.
    Buffer(Base, BufferId, Few),
}

/// A scalar by itself.
#[derive(Clone, Copy, Debug)]
pub struct Word {
    pub base: Base,
    pub number: Cell,
}

impl RunValue {
    /// The base of its elements.
    pub fn base(&self) -> Base
        ensures { result ≡ base_of (value_of self.now) }
    {
        match self {
            RunValue::Unbound => Base::Int,
            RunValue::Word(base, _) | RunValue::Short(base, _) | RunValue::Buffer(base, _, _) => {
                *base
            }
        }
    }

    /// The number of its extents.
    pub fn rank(&self) -> usize
        ensures { result ≡ length (shape_of (value_of self.now)) }
    {
        match self {
            RunValue::Unbound | RunValue::Word(_, _) => 0,
            RunValue::Short(_, _) => 1,
            RunValue::Buffer(_, _, extents) => extents.len(),
        }
    }

    /// Its extents.
    pub fn extents(&self) -> Few
        ensures { map unsigned_abs (numbers result) ≡ shape_of (value_of self.now) }
    {
        match self {
            RunValue::Unbound | RunValue::Word(_, _) => Few::empty(),
            RunValue::Short(_, cells) => Few::one(cells.len() as Cell),
            RunValue::Buffer(_, _, extents) => *extents,
        }
    }

    /// The number that a scalar is. A scalar in a buffer, of which no code has one, counts as want of memory.
    pub fn as_word(&self) -> Result<Option<Cell>, Memory>
        ensures { IfOk result (WordOf (value_of self.now)) }
    {
        match self {
            RunValue::Unbound => Ok(Some(0)),
            RunValue::Word(_, n) => Ok(Some(*n)),
            RunValue::Short(_, _) => Ok(None),
            RunValue::Buffer(_, _, extents) => {
                if extents.len() > 0 {
                    Ok(None)
                } else {
                    Err(Memory)
                }
            }
        }
    }
}

/// The value of a small array: a scalar, or a vector of at most 8 elements.
pub fn small_value(base: Base, shape: &Shape, cells: &[Cell]) -> Option<RunValue>
    requires { length cells.now ≡ size shape.now }
    ensures some { IfSome result (λ v. value_of v ≡ Small (record { base = base; shape = shape.now; cells = cells.now })) }
    ensures small { is_some result ≡ is_small shape.now }
{
    if shape.rank() == 0 {
        return scalar_value(base, cells);
    }
    if shape.rank() == 1 {
        return vector_value(base, cells);
    }
    None
}

fn scalar_value(base: Base, cells: &[Cell]) -> Option<RunValue>
    requires { length cells.now ≡ 1 }
    ensures value { IfSome result (λ v. value_of v ≡ Small (record { base = base; shape = []; cells = cells.now })) }
    ensures some { is_some result ≡ true }
{
    match cells.first() {
        Some(n) => Some(RunValue::Word(base, *n)),
        None => None,
    }
}

fn vector_value(base: Base, cells: &[Cell]) -> Option<RunValue>
    ensures some { IfSome result (λ v. value_of v ≡ Small (vector base cells.now)) }
    ensures small { is_some result ≡ nat_le (length cells.now) 8 }
{
    match Few::from_slice(cells) {
        Some(few) => Some(RunValue::Short(base, few)),
        None => None,
    }
}

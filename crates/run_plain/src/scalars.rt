//! Right sides that are scalars of scalars, in which no heap is read.

ghost use Rattle.std.specs.Prelude.{◌≡◌, Ok, IfSome};
ghost use Rattle.counted_code.specs.View.{code_right_term};
ghost use Rattle.run_plain.specs.Reads.{IsScalarOf};
ghost use Rattle.run_values.specs.Scopes.{current};
ghost use Rattle.sac_base.specs.Arrays.{scalar};
ghost use Rattle.sac_base.specs.Operators.{binary as binary_arrays, unary as unary_arrays};

use counted_code::CodeRight;
use run_values::{Frames, Word};
use sac_base::{Array, Op, ZeroDivisor, apply1, apply2, result_base};

/// The scalar that a right side is: a constant, a copy, or an operator of scalars that has a value there. None says nothing.
pub fn scalar_value(right: &CodeRight, frames: &Frames<'_>) -> Option<Word>
    ensures { IfSome result (IsScalarOf (code_right_term right.now) (current frames.now)) }
{
    match right {
        CodeRight::Const(array) => constant(array),
        CodeRight::Copy(x) => frames.word(*x),
        CodeRight::Unary(op, x) => {
            let word = frames.word(*x)?;
            Some(unary_word(*op, word))
        }
        CodeRight::Binary(op, x, y) => {
            let left = frames.word(*x)?;
            let right = frames.word(*y)?;
            binary_word(*op, left, right)
        }
        _ => None,
    }
}

fn constant(array: &Array) -> Option<Word>
    ensures { IfSome result (λ w. array.now ≡ scalar w.base w.number) }
{
    let number = array.as_scalar()?;
    Some(Word {
        base: array.base(),
        number,
    })
}

fn unary_word(op: Op, word: Word) -> Word
    ensures { scalar result.base result.number ≡ unary_arrays op (scalar word.base word.number) }
{
    Word {
        base: result_base(op),
        number: apply1(op, word.number),
    }
}

fn binary_word(op: Op, left: Word, right: Word) -> Option<Word>
    ensures { IfSome result (λ w. binary_arrays op (scalar left.base left.number) (scalar right.base right.number) ≡ Ok (scalar w.base w.number)) }
{
    match apply2(op, left.number, right.number) {
        Ok(number) => Some(Word {
            base: result_base(op),
            number,
        }),
        Err(ZeroDivisor) => None,
    }
}

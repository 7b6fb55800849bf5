//! Operators on short vectors.

ghost use Rattle.std.specs.Prelude.{◌≡◌, map};
ghost use Rattle.sac_base.specs.declared.base.Base.{Base as BaseOf};
ghost use Rattle.sac_base.specs.Arrays.{vector};
ghost use Rattle.sac_base.specs.Operators.{apply_one, binary, result_base};
ghost use Rattle.run_values.specs.Numbers.{numbers};
ghost use Rattle.run_values.specs.Shown.{GivesShort};

use crate::few::Few;
use sac_base::{FaultKind, Op, ZeroDivisor, apply1, apply2};

/// An operator of one operand at each element.
#[inline(never)]
pub fn short_unary(op: Op, a: &Few) -> Few
    ensures { numbers result ≡ map (apply_one op) (numbers a.now) }
{
    let mut out = Few::empty();
    for n in a.as_slice() {
        out.push(apply1(op, *n));
    }
    out
}

/// An operator of two operands at each pair of elements. Faults: F3 where there are not equally many, and F2 for a zero divisor.
#[inline(never)]
pub fn short_binary(op: Op, a: &Few, b: &Few) -> Result<Few, FaultKind>
    ensures { (s t : BaseOf) → GivesShort (result_base op) result (binary op (vector s (numbers a.now)) (vector t (numbers b.now))) }
{
    if a.len() != b.len() {
        return Err(FaultKind::F3);
    }
    let left = a.as_slice();
    let right = b.as_slice();
    let mut out = Few::empty();
    for k in 0..left.len() {
        match apply2(op, left[k], right[k]) {
            Ok(n) => {
                out.push(n);
            }
            Err(ZeroDivisor) => return Err(FaultKind::F2),
        }
    }
    Ok(out)
}

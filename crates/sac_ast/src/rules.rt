//! Rules on bases. One that asks for a base, or compares two, holds where a base is missing.

ghost use Rattle.std.specs.Prelude.{◌≡◌, [], ◌∷◌};
ghost use Rattle.sac_ast.specs.Bases;

use crate::Builtin;
use sac_base::{Base, Op};

/// Whether a base, where it is there, is the one that is asked for.
pub fn may_be(wanted: Base, base: Option<Base>) -> bool
    ensures { result ≡ Bases.may_be wanted base }
{
    match base {
        None => true,
        Some(b) => wanted == b,
    }
}

/// Whether two bases, where both are there, are the same.
pub fn may_match(a: Option<Base>, b: Option<Base>) -> bool
    ensures { result ≡ Bases.may_match a b }
{
    match a {
        None => true,
        Some(a) => may_be(a, b),
    }
}

/// The base that an operator's operands need; `==` and `!=` compare two of either.
pub fn operand_base(op: Op) -> Base
    ensures { result ≡ Bases.operand_base op }
{
    match op {
        Op::Not | Op::And | Op::Or => Base::Bool,
        _ => Base::Int,
    }
}

/// Whether an operator takes operands of these bases.
pub fn operands_fit(op: Op, a: Option<Base>, b: Option<Base>) -> bool
    ensures { result ≡ Bases.operands_fit op a b }
{
    match op {
        Op::Eq | Op::Ne => may_match(a, b),
        _ => may_be(operand_base(op), a) && may_be(operand_base(op), b),
    }
}

/// A base where a rule holds.
pub fn where_holds(holds: bool, base: Option<Base>) -> Option<Base>
    ensures { result ≡ Bases.where_holds holds base }
{
    if holds { base } else { None }
}

// The first base that is there.
fn first_known(bases: &[Option<Base>]) -> Option<Base>
    ensures { result ≡ Bases.first_known bases.now }
{
    for base in bases {
        if let Some(b) = base {
            return Some(*b);
        }
    }
    None
}

/// Whether no two that are there differ.
pub fn agree(bases: &[Option<Base>]) -> bool
    ensures { result ≡ Bases.agree bases.now }
{
    let first = first_known(bases);
    for base in bases {
        if !may_match(first, *base) {
            return false;
        }
    }
    true
}

/// The base of a literal whose elements have these.
pub fn literal_base(bases: &[Option<Base>]) -> Option<Base>
    ensures { result ≡ Bases.literal_base bases.now }
{
    if bases.is_empty() {
        return Some(Base::Int);
    }
    where_holds(agree(bases), first_known(bases))
}

/// The base of a choice whose branches have these.
pub fn choice_base(a: Option<Base>, b: Option<Base>) -> Option<Base>
    ensures { result ≡ Bases.common_base (a ∷ b ∷ []) }
{
    match a {
        None => b,
        Some(_) => where_holds(may_match(a, b), a),
    }
}

/// The base of a built-in function's result.
pub fn builtin_base(builtin: Builtin, bases: &[Option<Base>]) -> Option<Base>
    ensures { result ≡ Bases.builtin_base builtin bases.now }
{
    match builtin {
        Builtin::Dim | Builtin::Shape => Some(Base::Int),
        Builtin::Reshape => where_holds(may_be(Base::Int, first_base(bases)), second_base(bases)),
    }
}

/// The first base of a list, where it is there.
pub fn first_base(bases: &[Option<Base>]) -> Option<Base>
    ensures { result ≡ Bases.first_base bases.now }
{
    match bases {
        [] => None,
        [base, ..] => *base,
    }
}

fn second_base(bases: &[Option<Base>]) -> Option<Base>
    ensures { result ≡ Bases.second_base bases.now }
{
    match bases {
        [] | [_] => None,
        [_, base, ..] => *base,
    }
}

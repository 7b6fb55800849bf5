//! Right sides without blocks and calls.

ghost use Rattle.std.specs.Prelude.{◌≡◌, [], ◌∷◌, true, Some, IfOk, map};
ghost use Rattle.core_ir.specs.Terms.{PlainTerm, Plain};
ghost use Rattle.core_ir.specs.View.{right_term};
ghost use Rattle.fact_table.specs.Table.{fact_of, facts_of};
ghost use Rattle.plain_facts.specs.Rights.{fact_of_right};
ghost use Rattle.core_forms.specs.cleaning.Checks.{fits};
ghost use Rattle.const_shape.specs.Settling.{literal_plain, settled_plain, without_check, is_plain as is_plain_term};

use core_ir::Right;
use fact_table::{FactTable, Known};
use plain_facts::known_rights::KnownRight;
use plain_facts::plain_fact;
use sac_base::{Array, ArrayType, Memory, copy_array, part_has};
use std::alloc::Global;

/// Whether a right side has no blocks and is no call.
pub fn is_plain(right: &Right) -> bool
    ensures { result ≡ is_plain_term (right_term right.now) }
{
    !matches!(
        right,
        Right::If { .. }
            | Right::Loop { .. }
            | Right::Call { .. }
            | Right::With(_)
            | Right::Parted(_)
    )
}

/// The constant in the place of a literal right side, and a copy in that of another check that cannot fail. Any other stays.
pub fn settle_plain(alloc: Global, right: Right, table: &FactTable) -> Result<KnownRight, Memory>
    ensures settled { IfOk result (λ new. right_term new.right ≡ settled_plain (right_term right) (facts_of table.now)) }
    ensures known { IfOk result (λ new. map fact_of new.values.items ≡ fact_of_right (right_term new.right) (facts_of table.now) ∷ []) }
{
    let known = settle_literal(alloc, right, table)?;
    Ok(KnownRight {
        right: uncheck(known.right, table),
        values: known.values,
    })
}

/// A copy in the place of a check that cannot fail.
fn uncheck(right: Right, table: &FactTable) -> Right
    ensures { right_term result ≡ without_check (right_term right) (facts_of table.now) }
{
    match right {
        Right::Check(x, ty) => {
            if cannot_fail(&ty, table.fact(x)) {
                Right::Copy(x)
            } else {
                Right::Check(x, ty)
            }
        }
        other => other,
    }
}

/// A check of a variable of which this is known, and which is not literal.
fn cannot_fail(ty: &ArrayType, known: &Known) -> bool
    ensures { result ≡ fits ty.now (fact_of known.now) }
{
    if known.literal.is_some() {
        return false;
    }
    match &known.shape {
        Some(shape) => part_has(&ty.part, shape),
        None => false,
    }
}

/// The constant in the place of a literal right side. Any other stays.
fn settle_literal(alloc: Global, right: Right, table: &FactTable) -> Result<KnownRight, Memory>
    ensures settled { IfOk result (λ new. right_term new.right ≡ literal_plain (right_term right) (facts_of table.now)) }
    ensures known { IfOk result (λ new. map fact_of new.values.items ≡ fact_of_right (right_term new.right) (facts_of table.now) ∷ []) }
{
    let known = plain_fact(alloc, &right, table)?;
    if known.constant {
        return KnownRight::of_one(alloc, right, known);
    }
    let Known { shape, literal, .. } = known;
    match literal {
        Some(value) => constant(alloc, value),
        None => KnownRight::of_one(alloc, right, Known::of_shape(shape)),
    }
}

/// A constant, of which all is known.
fn constant(alloc: Global, value: Array) -> Result<KnownRight, Memory>
    ensures right { IfOk result (λ new. right_term new.right ≡ Plain (PlainTerm.Const value)) }
    ensures known { IfOk result (λ new. map fact_of new.values.items ≡ record { shape = Some value.shape; literal = Some value; constant = true } ∷ []) }
{
    let right = Right::Const(copy_array(&value)?);
    let shape = value.shape().copy();
    let known = Known {
        shape: Some(shape),
        literal: Some(value),
        constant: true,
    };
    KnownRight::of_one(alloc, right, known)
}

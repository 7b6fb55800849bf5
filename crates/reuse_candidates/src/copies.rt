//! Copies of right sides of counted code.

ghost use Rattle.std.specs.Prelude.{◌≡◌, IfOk};
ghost use Rattle.core_ir.specs.View.{right_term};
ghost use Rattle.counted_code.specs.Terms.{core_of_right};
ghost use Rattle.counted_code.specs.View.{code_right_term};
ghost use Rattle.reuse_candidates.specs.Plain.{plain_code, plain_core};

use core_ir::{Right, Var};
use counted_code::CodeRight;
use sac_base::{FaultKind, Memory, copy_array, copy_type};
use std::alloc::Global;

/// An equal list.
pub fn copy_vars(alloc: Global, vars: &[Var]) -> Result<Vec<Var>, Memory>
    ensures { IfOk result (λ v. v.items ≡ vars.now) }
{
    Ok(Vec::from_slice(alloc, vars)?)
}

/// The right side of the core that a right side without blocks and calls is. For any other there is one of which nothing is known.
pub fn core_right(alloc: Global, right: &CodeRight) -> Result<Right, Memory>
    ensures { IfOk result (λ r. right_term r ≡ plain_core (core_of_right (code_right_term right.now))) }
{
    match right {
        CodeRight::Const(a) => Ok(Right::Const(copy_array(a)?)),
        CodeRight::Copy(x) => Ok(Right::Copy(*x)),
        CodeRight::Unary(op, x) => Ok(Right::Unary(*op, *x)),
        CodeRight::Binary(op, x, y) => Ok(Right::Binary(*op, *x, *y)),
        CodeRight::Literal(xs) => Ok(Right::Literal(copy_vars(alloc, xs)?)),
        CodeRight::Dim(x) => Ok(Right::Dim(*x)),
        CodeRight::ShapeOf(x) => Ok(Right::ShapeOf(*x)),
        CodeRight::Reshape(x, y) => Ok(Right::Reshape(*x, *y)),
        CodeRight::Select(x, y) => Ok(Right::Select(*x, *y)),
        CodeRight::Replace(x, y, z) => Ok(Right::Replace(*x, *y, *z)),
        CodeRight::Check(x, ty) => Ok(Right::Check(*x, copy_type(ty))),
        CodeRight::Always(kind) => Ok(Right::Always(*kind)),
        CodeRight::If { .. }
        | CodeRight::Loop { .. }
        | CodeRight::Call { .. }
        | CodeRight::With(_)
        | CodeRight::Parted(_) => Ok(Right::Always(FaultKind::F7)),
    }
}

/// An equal right side, of one without blocks and calls.
pub fn copy_plain(alloc: Global, right: &CodeRight) -> Result<CodeRight, Memory>
    ensures { IfOk result (λ r. code_right_term r ≡ plain_code (code_right_term right.now)) }
{
    match right {
        CodeRight::Const(a) => Ok(CodeRight::Const(copy_array(a)?)),
        CodeRight::Copy(x) => Ok(CodeRight::Copy(*x)),
        CodeRight::Unary(op, x) => Ok(CodeRight::Unary(*op, *x)),
        CodeRight::Binary(op, x, y) => Ok(CodeRight::Binary(*op, *x, *y)),
        CodeRight::Literal(xs) => Ok(CodeRight::Literal(copy_vars(alloc, xs)?)),
        CodeRight::Dim(x) => Ok(CodeRight::Dim(*x)),
        CodeRight::ShapeOf(x) => Ok(CodeRight::ShapeOf(*x)),
        CodeRight::Reshape(x, y) => Ok(CodeRight::Reshape(*x, *y)),
        CodeRight::Select(x, y) => Ok(CodeRight::Select(*x, *y)),
        CodeRight::Replace(x, y, z) => Ok(CodeRight::Replace(*x, *y, *z)),
        CodeRight::Check(x, ty) => Ok(CodeRight::Check(*x, copy_type(ty))),
        CodeRight::Always(kind) => Ok(CodeRight::Always(*kind)),
        CodeRight::If { .. }
        | CodeRight::Loop { .. }
        | CodeRight::Call { .. }
        | CodeRight::With(_)
        | CodeRight::Parted(_) => Ok(CodeRight::Always(FaultKind::F7)),
    }
}

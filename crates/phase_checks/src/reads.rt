//! Whether what is read stands in a scope.

ghost use Rattle.std.specs.Prelude.{ℕ, IsTrue, [], option_to_list};
ghost use Rattle.core_ir.specs.Scopes.{AllIn, op_uses, parted_uses, head_uses};
ghost use Rattle.counted_code.specs.View.{code_right_term};
ghost use Rattle.counted_code.specs.Pieces.{gen_head};
ghost use Rattle.phase_checks.specs.Walks.{IsCountedRight, OnlyReads};

use crate::bags::{all_in, stands_in};
use core_ir::{CoreOp, PartedOp, Var};
use counted_code::{CodeGen, CodeRight};

/// Whether it is a right side without blocks and calls that ends no reference, and reads variables of the scope.
pub fn only_reads(right: &CodeRight, scope: &[Var]) -> bool
    ensures counted { IsTrue result → (results_of : ℕ → ℕ) → IsCountedRight results_of 1 scope.now [] (code_right_term right.now) }
    ensures converse { OnlyReads (code_right_term right.now) → (results_of : ℕ → ℕ)
        → IsCountedRight results_of 1 scope.now [] (code_right_term right.now) → IsTrue result }
{
    match right {
        CodeRight::Const(_) => true,
        CodeRight::Unary(_, x) => all_in(&[*x], scope),
        CodeRight::Binary(_, x, y) => all_in(&[*x, *y], scope),
        CodeRight::Literal(xs) => all_in(xs, scope),
        CodeRight::Dim(x) => all_in(&[*x], scope),
        CodeRight::ShapeOf(x) => all_in(&[*x], scope),
        CodeRight::Reshape(x, y) => all_in(&[*x, *y], scope),
        CodeRight::Select(x, y) => all_in(&[*x, *y], scope),
        CodeRight::Replace(x, y, z) => all_in(&[*x, *y, *z], scope),
        _ => false,
    }
}

/// Whether the operation of a with-loop reads variables of the scope.
pub fn operation_reads(op: CoreOp, scope: &[Var]) -> bool
    ensures inside { IsTrue result → AllIn (op_uses op) scope.now }
    ensures converse { AllIn (op_uses op) scope.now → IsTrue result }
{
    match op {
        CoreOp::Genarray { shape, default } => all_in(&[shape, default], scope),
        CoreOp::Modarray { array } => all_in(&[array], scope),
        CoreOp::Fold { neutral, .. } => all_in(&[neutral], scope),
    }
}

/// Whether the operation of a parted loop reads variables of the scope.
pub fn parted_reads(op: PartedOp, scope: &[Var]) -> bool
    ensures inside { IsTrue result → AllIn (parted_uses op) scope.now }
    ensures converse { AllIn (parted_uses op) scope.now → IsTrue result }
{
    match op {
        PartedOp::Genarray => true,
        PartedOp::Modarray { array } => all_in(&[array], scope),
        PartedOp::Fold { neutral, .. } => all_in(&[neutral], scope),
    }
}

/// Whether the bounds of a generator are variables of the scope.
pub fn bounds_read(generator: &CodeGen, scope: &[Var]) -> bool
    ensures inside { IsTrue result → AllIn (head_uses (gen_head generator.now)) scope.now }
    ensures converse { AllIn (head_uses (gen_head generator.now)) scope.now → IsTrue result }
{
    is_read(generator.lower, scope)
        && is_read(generator.upper, scope)
        && is_read(generator.step, scope)
        && is_read(generator.width, scope)
}

/// Whether the variable, if there is one, stands in the scope.
fn is_read(x: Option<Var>, scope: &[Var]) -> bool
    ensures inside { IsTrue result → AllIn (option_to_list x) scope.now }
    ensures converse { AllIn (option_to_list x) scope.now → IsTrue result }
{
    match x {
        Some(x) => stands_in(scope, x),
        None => true,
    }
}

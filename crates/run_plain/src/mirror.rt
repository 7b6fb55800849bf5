//! Operators whose operands may change places.

ghost use Rattle.run_plain.specs.Mirrors.{IsMirror};
ghost use Rattle.std.specs.Prelude.{IfSome};

use sac_base::Op;

/// The operator that has the same value where its operands have changed places, if there is one.
#[tactic(auto, using(crate::proofs::Mirrors::add, crate::proofs::Mirrors::mul, crate::proofs::Mirrors::min_of, crate::proofs::Mirrors::max_of, crate::proofs::Mirrors::eq, crate::proofs::Mirrors::ne, crate::proofs::Mirrors::lt, crate::proofs::Mirrors::le, crate::proofs::Mirrors::gt, crate::proofs::Mirrors::ge, crate::proofs::Mirrors::both_true, crate::proofs::Mirrors::either_true))]
pub(crate) fn mirrored(op: Op) -> Option<Op>
    ensures { IfSome result (λ other. IsMirror op other) }
{
    match op {
        Op::Add => Some(Op::Add),
        Op::Mul => Some(Op::Mul),
        Op::Min => Some(Op::Min),
        Op::Max => Some(Op::Max),
        Op::Eq => Some(Op::Eq),
        Op::Ne => Some(Op::Ne),
        Op::Lt => Some(Op::Gt),
        Op::Le => Some(Op::Ge),
        Op::Gt => Some(Op::Lt),
        Op::Ge => Some(Op::Le),
        Op::And => Some(Op::And),
        Op::Or => Some(Op::Or),
        Op::Sub | Op::Div | Op::Rem | Op::Neg | Op::Not => None,
    }
}

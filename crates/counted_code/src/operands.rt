//! The variables that a right side reads itself.

use crate::CodeRight;
use core_ir::Operands;

impl CodeRight {
    ghost use Rattle.std.specs.Prelude.{◌≡◌};
    ghost use Rattle.core_ir.specs.OperandLists.{operand_list};
    ghost use Rattle.core_ir.specs.Scopes.{right_uses};
    ghost use Rattle.counted_code.specs.Terms.{core_of_right};
    ghost use Rattle.counted_code.specs.View.{code_right_term};

    /// The variables that the right side reads itself: its operands, the condition of an `If`, the first values of a `Loop`, the arguments of a
    /// call, and what the operation of a with-loop reads.
    pub fn operands(&self) -> Operands<'_>
        ensures { operand_list result ≡ right_uses (core_of_right (code_right_term self.now)) }
    {
        match self {
            CodeRight::Const(_) | CodeRight::Always(_) => Operands::Nothing,
            CodeRight::Copy(x)
            | CodeRight::Unary(_, x)
            | CodeRight::Dim(x)
            | CodeRight::ShapeOf(x)
            | CodeRight::Check(x, _) => Operands::One([*x]),
            CodeRight::Binary(_, x, y) | CodeRight::Reshape(x, y) | CodeRight::Select(x, y) => {
                Operands::Two([*x, *y])
            }
            CodeRight::Replace(x, y, z) => Operands::Three([*x, *y, *z]),
            CodeRight::Literal(xs) => Operands::List(xs),
            CodeRight::If { cond, .. } => Operands::One([*cond]),
            CodeRight::Loop { start, .. } => Operands::List(start),
            CodeRight::Call { args, .. } => Operands::List(args),
            CodeRight::With(with) => with.op.operands(),
            CodeRight::Parted(parted) => parted.op.operands(),
        }
    }
}

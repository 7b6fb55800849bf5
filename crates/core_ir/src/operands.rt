//! The variables that a right side reads itself.

use crate::{CoreGen, CoreOp, PartedOp, Right, Var};

/// The variables that a right side reads itself, in their order. Those that only its blocks read are not among them.
#[derive(Clone, Copy)]
pub enum Operands<'a> {
    Nothing,
    One([Var; 1]),
    Two([Var; 2]),
    Three([Var; 3]),
    List(&'a [Var]),
}

impl Operands<'_> {
    ghost use Rattle.std.specs.Prelude.{◌≡◌};
    ghost use Rattle.core_ir.specs.OperandLists.{operand_list};

    /// The variables as a list.
    pub fn as_slice(&self) -> &[Var]
        ensures { result.now ≡ operand_list self.now }
    {
        match self {
            Operands::Nothing => &[],
            Operands::One(vars) => vars,
            Operands::Two(vars) => vars,
            Operands::Three(vars) => vars,
            Operands::List(vars) => vars,
        }
    }
}

impl Right {
    ghost use Rattle.std.specs.Prelude.{◌≡◌};
    ghost use Rattle.core_ir.specs.OperandLists.{operand_list};
    ghost use Rattle.core_ir.specs.Scopes.{right_uses};
    ghost use Rattle.core_ir.specs.View.{right_term};

    /// The variables that the right side reads itself: its operands, the condition of an `If`, the first values of a `Loop`, the arguments of a
    /// call, and what the operation of a with-loop reads.
    pub fn operands(&self) -> Operands<'_>
        ensures { operand_list result ≡ right_uses (right_term self.now) }
    {
        match self {
            Right::Const(_) | Right::Always(_) => Operands::Nothing,
            Right::Copy(x)
            | Right::Unary(_, x)
            | Right::Dim(x)
            | Right::ShapeOf(x)
            | Right::Check(x, _) => Operands::One([*x]),
            Right::Binary(_, x, y) | Right::Reshape(x, y) | Right::Select(x, y) => {
                Operands::Two([*x, *y])
            }
            Right::Replace(x, y, z) => Operands::Three([*x, *y, *z]),
            Right::Literal(xs) => Operands::List(xs),
            Right::If { cond, .. } => Operands::One([*cond]),
            Right::Loop { start, .. } => Operands::List(start),
            Right::Call { args, .. } => Operands::List(args),
            Right::With(w) => w.op.operands(),
            Right::Parted(p) => p.op.operands(),
        }
    }
}

impl CoreOp {
    ghost use Rattle.std.specs.Prelude.{◌≡◌};
    ghost use Rattle.core_ir.specs.OperandLists.{operand_list};
    ghost use Rattle.core_ir.specs.Scopes.{op_uses};

    /// The variables that the operation reads.
    pub fn operands(self) -> Operands<'static>
        ensures { operand_list result ≡ op_uses self }
    {
        match self {
            CoreOp::Genarray { shape, default } => Operands::Two([shape, default]),
            CoreOp::Modarray { array } => Operands::One([array]),
            CoreOp::Fold { neutral, .. } => Operands::One([neutral]),
        }
    }
}

impl PartedOp {
    ghost use Rattle.std.specs.Prelude.{◌≡◌};
    ghost use Rattle.core_ir.specs.OperandLists.{operand_list};
    ghost use Rattle.core_ir.specs.Scopes.{parted_uses};

    /// The variables that the operation reads.
    pub fn operands(self) -> Operands<'static>
        ensures { operand_list result ≡ parted_uses self }
    {
        match self {
            PartedOp::Genarray => Operands::Nothing,
            PartedOp::Modarray { array } => Operands::One([array]),
            PartedOp::Fold { neutral, .. } => Operands::One([neutral]),
        }
    }
}

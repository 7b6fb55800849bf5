//! Operators, element by element.

ghost use Rattle.std.specs.Prelude.{◌≡◌, ◌≤◌, ℕ, None, Some, length, IfOk, MatchOption};
ghost use Rattle.sac_base.specs.Arrays.{size};
ghost use Rattle.sac_base.specs.Operators.{unary as unary_value, binary as binary_value, common_shape, stretched, combined};
ghost use Rattle.array_ops.specs.Answers.{Gives};
ghost use Rattle.array_ops.specs.Operands.{cells_of, cell_at, HasCells, HasCell, GivesCells};

use crate::ArrayError;
use sac_base::{
    Array, Cell, FaultKind, Memory, Op, ZeroDivisor, apply1, apply2, result_base, same_shape,
};
use std::alloc::Global;

/// An operator of one operand at each element.
pub fn unary(alloc: Global, op: Op, a: &Array) -> Result<Array, Memory>
    ensures { IfOk result (λ array. array ≡ unary_value op a.now) }
{
    let cells = a.cells();
    let mut values = Vec::with_capacity(alloc, cells.len())?;
    for cell in cells {
        values.push_reserved(apply1(op, *cell));
    }
    Ok(Array::new(result_base(op), a.shape().copy(), values))
}

/// An operator of two operands at each element; a scalar operand is used at every element of the other.
///
/// Faults: F3 where neither operand is a scalar and their shapes differ, and F2 where an element is divided by zero.
pub fn binary(alloc: Global, op: Op, a: &Array, b: &Array) -> Result<Array, ArrayError>
    ensures { Gives result (binary_value op a.now b.now) }
{
    let Some(whole) = with_common_shape(a, b) else {
        return Err(ArrayError::Faulted(FaultKind::F3));
    };
    let cells = combine(alloc, op, operand_of(a), operand_of(b), whole.cells().len())?;
    Ok(Array::new(result_base(op), whole.shape().copy(), cells))
}

// The operand that has the shape of the result.
fn with_common_shape<'a>(a: &'a Array, b: &'a Array) -> Option<&'a Array>
    ensures { MatchOption result (common_shape a.now.shape b.now.shape ≡ None) (λ whole. common_shape a.now.shape b.now.shape ≡ Some whole.now.shape) }
{
    if a.shape().rank() == 0 {
        Some(b)
    } else if b.shape().rank() == 0 || same_shape(a.shape(), b.shape()) {
        Some(a)
    } else {
        None
    }
}

// The cells of an operand: one for each element, or the same for all.
#[derive(Clone, Copy)]
enum Operand<'a> {
    Each(&'a [Cell]),
    Same(Cell),
}

impl Operand<'_> {
    fn at(self, k: usize) -> Cell
        requires { HasCell self k }
        ensures { result ≡ cell_at self.entry k }
    {
        match self {
            Operand::Each(cells) => cells[k],
            Operand::Same(cell) => cell,
        }
    }
}

fn operand_of(a: &Array) -> Operand<'_>
    ensures cells { (n : ℕ) → cells_of n result ≡ stretched n a.now.shape a.now.cells }
    ensures enough { (n : ℕ) → (1 ≤ length a.now.shape → size a.now.shape ≡ n) → HasCells result n }
{
    match a.as_scalar() {
        Some(cell) => Operand::Same(cell),
        None => Operand::Each(a.cells()),
    }
}

// The operator at the first n cells of both.
fn combine(
    alloc: Global,
    op: Op,
    left: Operand<'_>,
    right: Operand<'_>,
    n: usize,
) -> Result<Vec<Cell>, ArrayError>
    requires left { HasCells left n }
    requires right { HasCells right n }
    ensures cells { GivesCells result (combined op (cells_of n left.entry) (cells_of n right.entry)) }
    ensures length { IfOk result (λ cells. length cells.items ≡ n) }
{
    let mut values = Vec::with_capacity(alloc, n)?;
    for k in 0..n {
        match apply2(op, left.at(k), right.at(k)) {
            Ok(value) => values.push_reserved(value),
            Err(ZeroDivisor) => return Err(ArrayError::Faulted(FaultKind::F2)),
        }
    }
    Ok(values)
}

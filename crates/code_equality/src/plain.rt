//! Right sides without blocks.

ghost use Rattle.std.specs.Prelude.{◌≡◌, IsTrue};
ghost use Rattle.counted_code.specs.View.{code_right_term};

use crate::leaves::{same_array, same_type};
use crate::lists::same_vars;
use counted_code::CodeRight;

/// Whether two right sides without blocks are the same. With blocks they are not looked at.
pub fn same_plain(a: &CodeRight, b: &CodeRight) -> bool
    ensures { IsTrue result → code_right_term a.now ≡ code_right_term b.now }
{
    match (a, b) {
        (CodeRight::Const(x), CodeRight::Const(u)) => same_array(x, u),
        (CodeRight::Copy(x), CodeRight::Copy(u)) => *x == *u,
        (CodeRight::Unary(op, x), CodeRight::Unary(other, u)) => *op == *other && *x == *u,
        (CodeRight::Binary(op, x, y), CodeRight::Binary(other, u, v)) => *op == *other
            && *x == *u
            && *y == *v,
        (CodeRight::Literal(xs), CodeRight::Literal(us)) => same_vars(xs, us),
        (CodeRight::Dim(x), CodeRight::Dim(u)) => *x == *u,
        (CodeRight::ShapeOf(x), CodeRight::ShapeOf(u)) => *x == *u,
        (CodeRight::Reshape(x, y), CodeRight::Reshape(u, v)) => *x == *u && *y == *v,
        (CodeRight::Select(x, y), CodeRight::Select(u, v)) => *x == *u && *y == *v,
        (CodeRight::Replace(x, y, z), CodeRight::Replace(u, v, w)) => *x == *u
            && *y == *v
            && *z == *w,
        (
            CodeRight::Call { group, args },
            CodeRight::Call {
                group: other,
                args: others,
            },
        ) => *group == *other && same_vars(args, others),
        (CodeRight::Always(kind), CodeRight::Always(other)) => *kind == *other,
        (CodeRight::Check(x, ty), CodeRight::Check(u, other)) => *x == *u && same_type(ty, other),
        _ => false,
    }
}

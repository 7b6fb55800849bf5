//! The two rules by which a loop's array to take over is chosen: at the own index alone, and the least variable first.

ghost use Rattle.std.specs.List.{list_all};
ghost use Rattle.std.specs.Ordering.{int_eq};
ghost use Rattle.std.specs.Prelude.{◌≡◌, pos};
ghost use Rattle.counted_marks.specs.Marks.{is_own_index};
ghost use Rattle.counted_marks.specs.Marking.{lesser as lesser_of};
ghost use Rattle.index_table.specs.Table.{index_of};

use core_ir::Var;
use index_table::Relation;

/// Whether a variable is the index of its cell, with nothing added.
pub fn is_own(relation: &Relation) -> bool
    ensures { result ≡ is_own_index (index_of relation.now) }
{
    match relation {
        Relation::Plus(numbers) => are_zero(numbers),
        _ => false,
    }
}

fn are_zero(numbers: &[i32]) -> bool
    ensures { result ≡ list_all (λ z. int_eq z (pos 0)) numbers.now }
{
    for number in numbers {
        if *number != 0 {
            return false;
        }
    }
    true
}

/// The lesser of a variable and of one that was found before.
pub fn lesser(x: Var, found: Option<Var>) -> Option<Var>
    ensures { result ≡ lesser_of x found }
{
    match found {
        Some(y) if y.0 <= x.0 => Some(y),
        _ => Some(x),
    }
}

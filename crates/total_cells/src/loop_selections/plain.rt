//! Right sides without blocks and calls.

ghost use Rattle.std.specs.Prelude.{◌≡◌, ◌++◌, [], ◌∷◌, IfOk, OnOk, Ok, Some};
ghost use Rattle.std.specs.Option.{is_some};
ghost use Rattle.core_ir.specs.View.{right_term};
ghost use Rattle.core_ir.specs.Terms.{PlainTerm};
ghost use Rattle.core_loops.specs.Indices.{offset_of};
ghost use Rattle.core_loops.specs.Pairs.{plain_offsets};
ghost use Rattle.core_uses.specs.Tests.{none_is};
ghost use Rattle.fact_table.specs.Table.{fact_of, facts_of};
ghost use Rattle.index_table.specs.Table.{index_of, indices_of};
ghost use Rattle.plain_facts.specs.Rights.{fact_of_right};
ghost use Rattle.total_cells.specs.loop_selections.Selecting.{is_selecting_plain, right_offsets};
ghost use Rattle.total_cells.specs.loop_selections.Told.{known_if, offset_told, seen, told};

use core_ir::{Right, Var};
use core_uses::avoids_all;
use fact_table::{FactTable, Known};
use index_table::{IndexTable, Relation};
use plain_facts::plain_fact;
use sac_base::Memory;
use std::alloc::Global;

/// What is known of the value of a right side that uses the producer in a selection from it alone, and the offset of that selection behind those that are
/// found. There is nothing where it is used in another way, and for any right side with blocks or calls.
pub fn plain_values(
    alloc: Global,
    right: &Right,
    producer: Var,
    facts: &FactTable,
    indices: &IndexTable,
    found: &mut Vec<Option<Vec<i32>>>,
) -> Result<Option<Vec<Known>>, Memory>
    ensures known { IfOk result (λ values. seen values ≡ known_if (is_selecting_plain producer (right_term right.now))
        (fact_of_right (right_term right.now) (facts_of facts.now) ∷ [])) }
    ensures found { OnOk result (told found.new.items
        ≡ told found.old.items ++ right_offsets producer (right_term right.now) (indices_of indices.now)) }
{
    note_offset(right, producer, indices, found)?;
    if !only_selects(right, producer) {
        return Ok(None);
    }
    let mut values = Vec::new(alloc);
    values.push(plain_fact(alloc, right, facts)?)?;
    Ok(Some(values))
}

fn note_offset(
    right: &Right,
    producer: Var,
    indices: &IndexTable,
    found: &mut Vec<Option<Vec<i32>>>,
) -> Result<(), Memory>
    ensures { OnOk result (told found.new.items ≡ told found.old.items ++ right_offsets producer (right_term right.now) (indices_of indices.now)) }
{
    if let Right::Select(x, y) = right {
        note_selection(*x, *y, producer, indices, found)?;
    }
    Ok(())
}

fn note_selection(
    array: Var,
    index: Var,
    producer: Var,
    indices: &IndexTable,
    found: &mut Vec<Option<Vec<i32>>>,
) -> Result<(), Memory>
    ensures { OnOk result (told found.new.items
        ≡ told found.old.items ++ plain_offsets producer (PlainTerm.Select array index) (indices_of indices.now)) }
{
    if producer.0 == array.0 {
        found.push(offset_at(index, indices)?)?;
    }
    Ok(())
}

/// The numbers that an index is the part's index plus, if it is that.
fn offset_at(index: Var, indices: &IndexTable) -> Result<Option<Vec<i32>>, Memory>
    ensures { IfOk result (λ offset. offset_told offset ≡ offset_of (indices_of indices.now index)) }
{
    match indices.at(index).copy()? {
        Relation::Plus(numbers) => Ok(Some(numbers)),
        _ => Ok(None),
    }
}

/// Whether a right side without blocks and calls uses the producer in a selection from it alone.
fn only_selects(right: &Right, producer: Var) -> bool
    ensures { result ≡ is_selecting_plain producer (right_term right.now) }
{
    match right {
        Right::Select(_, y) => avoids_all(producer, &[*y]),
        Right::If { .. }
        | Right::Loop { .. }
        | Right::Call { .. }
        | Right::With(_)
        | Right::Parted(_) => false,
        other => avoids_all(producer, other.operands().as_slice()),
    }
}

//! The offsets of a part's selections from a producer.

ghost use Rattle.std.specs.Prelude.{◌≡◌, ◌++◌, ◌∷◌, ℤ, List, Ok, true, false, Some, None, [], IfOk, OnOk, IfSome, IfNone, map, replicate, pos};
ghost use Rattle.core_ir.specs.View.{block_term, part_term};
ghost use Rattle.core_uses.specs.Tests.{is_avoided};
ghost use Rattle.fact_table.specs.Table.{facts_of};
ghost use Rattle.fold_pieces.specs.Pieces.{vectors};
ghost use Rattle.total_cells.specs.loop_selections.Selecting.{is_selecting};
ghost use Rattle.total_cells.specs.loop_selections.Told.{offset_told, told};
ghost use Rattle.plain_facts.specs.Called.{shapes_of};
ghost use Rattle.foldable_pairs.specs.Selected.{body_offsets, part_offsets, OnlySelects, FlatSelects};

use core_ir::{Block, CorePart, Var};
use core_uses::avoids;
use fact_table::{FactTable, Known};
use index_table::{IndexTable, Relation};
use plain_facts::CalledShapes;
use sac_base::{Grid, Memory, Shape};
use std::alloc::Global;
use total_cells::loop_selections::{Sought, selecting, selections};

/// The offsets of all selections from a producer in a part's body, in order, where it is used in selections at the part's index plus numbers alone, and where
/// a body that selects has no with-loop and no parted loop.
///
/// The table has what is known of variables before the consumer, and is left as it was.
pub fn selected_offsets(
    alloc: Global,
    producer: Var,
    part: &CorePart,
    called: &CalledShapes,
    facts: &mut FactTable,
) -> Result<Option<Vec<Vec<i32>>>, Memory>
    ensures some { IfOk result (λ found. IfSome found (λ offsets.
        OnlySelects (shapes_of called.now) (facts_of facts.old) producer (part_term part.now) (vectors offsets.items))) }
    ensures none { IfOk result (λ found. IfNone found ((at : List (List ℤ)) →
        OnlySelects (shapes_of called.now) (facts_of facts.old) producer (part_term part.now) at → ⊥)) }
    ensures facts { OnOk result (facts.new ≡ facts.old) }
{
    if avoids_part(producer, part) {
        return Ok(Some(Vec::new(alloc)));
    }
    match offsets_within(alloc, producer, part, called, facts)? {
        Some(offsets) => Ok(Some(offsets)),
        None => Ok(None),
    }
}

fn avoids_part(producer: Var, part: &CorePart) -> bool
    ensures { result ≡ is_avoided producer (part_term part.now).body }
{
    avoids(producer, &part.body)
}

/// The same of a part without with-loops and parted loops.
fn offsets_within(
    alloc: Global,
    producer: Var,
    part: &CorePart,
    called: &CalledShapes,
    facts: &mut FactTable,
) -> Result<Option<Vec<Vec<i32>>>, Memory>
    ensures some { IfOk result (λ found. IfSome found (λ offsets.
        FlatSelects (shapes_of called.now) (facts_of facts.old) producer (part_term part.now) (vectors offsets.items))) }
    ensures none { IfOk result (λ found. IfNone found ((at : List (List ℤ)) →
        FlatSelects (shapes_of called.now) (facts_of facts.old) producer (part_term part.now) at → ⊥)) }
    ensures facts { OnOk result (facts.new ≡ facts.old) }
{
    selecting();
    match part_selections(alloc, producer, part, called, facts)? {
        Some(found) => match all_known(alloc, &found)? {
            Some(offsets) => Ok(Some(offsets)),
            None => Ok(None),
        },
        None => Ok(None),
    }
}

/// The offsets of all selections in a part's body, where it selects alone.
fn part_selections(
    alloc: Global,
    producer: Var,
    part: &CorePart,
    called: &CalledShapes,
    facts: &mut FactTable,
) -> Result<Option<Vec<Option<Vec<i32>>>>, Memory>
    ensures some { IfOk result (λ found. IfSome found (λ all. (is_selecting producer (part_term part.now).body ≡ true)
        × (told all.items ≡ part_offsets (shapes_of called.now) (facts_of facts.old) producer (part_term part.now)))) }
    ensures none { IfOk result (λ found. IfNone found (is_selecting producer (part_term part.now).body ≡ false)) }
    ensures facts { OnOk result (facts.new ≡ facts.old) }
{
    body_selections(
        alloc, producer, part.index, &part.grid, &part.body, called, facts,
    )
}

/// The same of a body with this index.
fn body_selections(
    alloc: Global,
    producer: Var,
    index: Var,
    grid: &Grid,
    body: &Block,
    called: &CalledShapes,
    facts: &mut FactTable,
) -> Result<Option<Vec<Option<Vec<i32>>>>, Memory>
    ensures some { IfOk result (λ found. IfSome found (λ all. (is_selecting producer (block_term body.now) ≡ true)
        × (told all.items ≡ body_offsets (shapes_of called.now) (facts_of facts.old) producer grid.now index (block_term body.now)))) }
    ensures none { IfOk result (λ found. IfNone found (is_selecting producer (block_term body.now) ≡ false)) }
    ensures facts { OnOk result (facts.new ≡ facts.old) }
{
    let axes = grid.axes().len();
    let sought = Sought { producer, axes };
    let before = facts.mark();
    let mut indices = IndexTable::new(alloc);
    facts.learn(
        index,
        Known::of_shape(Some(Shape::vector(alloc, axes as i32))),
    )?;
    indices.learn(index, Relation::Plus(zeros(alloc, axes)?))?;
    let mut found = Vec::new(alloc);
    let known = selections(alloc, body, sought, called, facts, &mut indices, &mut found)?;
    facts.undo(before);
    match known {
        Some(_) => Ok(Some(found)),
        None => Ok(None),
    }
}

/// The offsets, if each is known.
fn all_known(alloc: Global, found: &[Option<Vec<i32>>]) -> Result<Option<Vec<Vec<i32>>>, Memory>
    ensures some { IfOk result (λ known. IfSome known (λ offsets. map (λ (c : List ℤ). Some c) (vectors offsets.items) ≡ told found.now)) }
    ensures none { IfOk result (λ known. IfNone known ((at : List (List ℤ)) → map (λ (c : List ℤ). Some c) at ≡ told found.now → ⊥)) }
{
    let mut known = Vec::new(alloc);
    for offset in found {
        if !push_known(alloc, offset, &mut known)? {
            return Ok(None);
        }
    }
    Ok(Some(known))
}

/// Appends an offset, if it is known.
fn push_known(
    alloc: Global,
    offset: &Option<Vec<i32>>,
    known: &mut Vec<Vec<i32>>,
) -> Result<bool, Memory>
    ensures pushed { result ≡ Ok true → map (λ (c : List ℤ). Some c) (vectors known.new.items)
        ≡ map (λ (c : List ℤ). Some c) (vectors known.old.items) ++ offset_told offset.now ∷ [] }
    ensures none { result ≡ Ok false → offset_told offset.now ≡ None }
{
    match offset {
        Some(numbers) => {
            let copy = Vec::from_slice(alloc, numbers.as_slice())?;
            known.push(copy)?;
            Ok(true)
        }
        None => Ok(false),
    }
}

fn zeros(alloc: Global, count: usize) -> Result<Vec<i32>, Memory>
    ensures { IfOk result (λ numbers. numbers.items ≡ replicate count (pos 0)) }
{
    let mut numbers = Vec::new(alloc);
    numbers.resize(count, 0)?;
    Ok(numbers)
}

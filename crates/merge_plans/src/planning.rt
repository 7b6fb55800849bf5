//! The plan of a merge.

ghost use Rattle.std.specs.Prelude.{◌≡◌, ◌↔◌, ◌≤◌, ◌+◌, ◌^◌, IsTrue, IfOk, OnOk, IfSome, IfNone, ℕ, map, pos, option_map, length, true, false};
ghost use Rattle.core_ir.specs.declared.tree.PartedOp.TheVariants.{Genarray};
ghost use Rattle.core_ir.specs.View.{block_term, part_term, parted_term};
ghost use Rattle.fact_table.specs.Table.{facts_of};
ghost use Rattle.plain_facts.specs.Called.{shapes_of};
ghost use Rattle.merge_plans.specs.Filled.{IsFilled};
ghost use Rattle.merge_plans.specs.Inners.{AreInner, IsInner};
ghost use Rattle.merge_plans.specs.Mergeable.{CanMerge, PlanOf};
ghost use Rattle.merge_plans.specs.Seen.{IsSeen, first_frame, frame_seen};

use crate::filling::is_filled;
use crate::finding::nest_of;
use crate::grids::joined_grid;
use crate::judging::{inner_count, is_genarray};
use core_ir::{Block, CorePart, PartedLoop};
use fact_table::FactTable;
use plain_facts::CalledShapes;
use sac_base::{Base, Grid, Memory};
use std::alloc::Global;

/// The greatest number that the next variable of a function may have.
const MOST_NUMBER: u64 = 2_147_483_649;

/// The most axes of a grid.
const GRID_AXES: usize = 8;

/// The most parts of all inner loops together.
const MOST_PARTS: usize = 64;

/// What a merge makes of a loop and the loops in its cells.
#[derive(Drop)]
pub struct MergePlan {
    /// The indices: those of the loop, followed by those of the inner loops.
    pub frame: Grid,
}

/// The plan of a parted loop and the loops in its cells as one. There is none exactly where the loop is not scalarisable, or where the grids of the merged
/// loop would have more than 8 axes, which a grid without members may have.
///
/// The table has what is known of variables before the loop, and is left as it was; `above` is more than the greatest number of a variable of the function.
///
/// # Errors
///
/// `Memory`: there is none for the plan.
pub fn merge_plan(
    alloc: Global,
    outer: &PartedLoop,
    above: u64,
    called: &CalledShapes,
    facts: &mut FactTable,
) -> Result<Option<MergePlan>, Memory>
    ensures plan { IfOk result (λ found. IfSome found (λ plan. PlanOf (shapes_of called.now) above (facts_of facts.old) (parted_term outer.now) plan)) }
    ensures none { IfOk result (λ found. IfNone found (CanMerge (shapes_of called.now) above (facts_of facts.old) (parted_term outer.now) → ⊥)) }
    ensures facts { OnOk result (facts.new ≡ facts.old) }
{
    let Some(inner) = first_inner(outer) else {
        return Ok(None);
    };
    if !is_seen(outer, inner, above) {
        return Ok(None);
    }
    if !are_inner(alloc, &outer.parts, inner, outer.base, called, facts)? {
        return Ok(None);
    }
    let frame = joined_grid(alloc, &outer.frame, inner)?;
    Ok(Some(MergePlan { frame }))
}

/// The frame of the first inner loop.
fn first_inner(outer: &PartedLoop) -> Option<&Grid>
    ensures { option_map (λ frame. frame.now) result ≡ first_frame (parted_term outer.now) }
{
    match outer.parts.first() {
        Some(part) => inner_frame(part),
        None => None,
    }
}

/// The frame of the first parted loop in a part's body.
fn inner_frame(part: &CorePart) -> Option<&Grid>
    ensures { option_map (λ frame. frame.now) result ≡ frame_seen (part_term part.now) }
{
    match nest_of(&part.body) {
        Some(nest) => Some(&nest.inner.frame),
        None => None,
    }
}

/// Whether a loop may be merged with inner loops of a frame, so far as it can be seen without looking at them.
fn is_seen(outer: &PartedLoop, inner: &Grid, above: u64) -> bool
    ensures { IsTrue result ↔ IsSeen above (parted_term outer.now) inner.now }
{
    above <= MOST_NUMBER
        && is_genarray(outer.op)
        && outer.frame.axes().len() + inner.axes().len() <= GRID_AXES
        && is_filled(inner.axes(), outer.cell.extents())
}

/// Whether each part has an inner loop of this frame and base, and these have few parts together.
fn are_inner(
    alloc: Global,
    parts: &[CorePart],
    frame: &Grid,
    base: Base,
    called: &CalledShapes,
    facts: &mut FactTable,
) -> Result<bool, Memory>
    ensures all { IfOk result (λ all. IsTrue all ↔ ((count : ℕ) ×
        (AreInner (shapes_of called.now) (facts_of facts.old) frame.now base (map part_term parts.now) count × (count ≤ 64)))) }
    ensures facts { OnOk result (facts.new ≡ facts.old) }
{
    let mut count = 0usize;
    for part in parts {
        match count_with(alloc, part, count, frame, base, called, facts)? {
            Some(more) => count = more,
            None => return Ok(false),
        }
    }
    Ok(true)
}

/// How many inner parts there are with those of one part more, if it has an inner loop, and if they stay few.
fn count_with(
    alloc: Global,
    part: &CorePart,
    count: usize,
    frame: &Grid,
    base: Base,
    called: &CalledShapes,
    facts: &mut FactTable,
) -> Result<Option<usize>, Memory>
    requires few { count ≤ 64 }
    ensures some { IfOk result (λ found. IfSome found (λ all. (c : ℕ) ×
        (IsInner (shapes_of called.now) (facts_of facts.old) frame.now base (part_term part.now) c × (all ≡ count + c) × (all ≤ 64)))) }
    ensures none { IfOk result (λ found. IfNone found ((c : ℕ) →
        IsInner (shapes_of called.now) (facts_of facts.old) frame.now base (part_term part.now) c → count + c ≤ 64 → ⊥)) }
    ensures facts { OnOk result (facts.new ≡ facts.old) }
{
    match inner_count(alloc, part, frame, base, called, facts)? {
        Some(more) if more <= MOST_PARTS - count => Ok(Some(count + more)),
        _ => Ok(None),
    }
}

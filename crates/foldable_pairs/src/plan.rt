//! The plan of a fold.

ghost use Rattle.std.specs.Prelude.{◌≡◌, ◌↔◌, IsTrue, ◌++◌, ◌+◌, ◌<◌, ◌≤◌, ℕ, List, [], ◌∷◌, Ok, true, false, ◌||◌, nat_lt, IfOk, OnOk, IfSome, IfNone, map};
ghost use Rattle.sac_base.specs.declared.base.Base.{Base};
ghost use Rattle.sac_base.specs.declared.site.Site.{Site};
ghost use Rattle.core_ir.specs.declared.tree.PartedOp.{PartedOp as Operation};
ghost use Rattle.core_ir.specs.Terms.{PartTerm};
ghost use Rattle.core_ir.specs.View.{part_term};
ghost use Rattle.core_loops.specs.Pairs.{PartFolds, grids_of};
ghost use Rattle.fact_table.specs.Table.{facts_of};
ghost use Rattle.plain_facts.specs.Called.{shapes_of};
ghost use Rattle.foldable_pairs.specs.Parts.{terms};
ghost use Rattle.fold_pieces.specs.Pieces.{vectors, AreNear};
ghost use Rattle.fold_pieces.specs.Cuts.{IsDense, IsCut, HasCut};
ghost use Rattle.foldable_pairs.specs.Building.{Added, Building, CanTake, HasRoom};
ghost use Rattle.foldable_pairs.specs.Pairs.{producer_of, IsNear, IsPlanned, PartPlanned, Takes};

use crate::offsets::selected_offsets;
use crate::producer::Producer;
use crate::room::has_room;
use core_ir::{CorePart, PartedOp};
use core_uses::avoids_all;
use fact_table::FactTable;
use fold_pieces::{Cut, FoldPiece, fold_pieces};
use plain_facts::CalledShapes;
use sac_base::{Grid, Memory};
use std::alloc::Global;

/// The most pieces of all parts together.
const MOST_PIECES: usize = 64;

/// What becomes of a part of the consumer.
#[derive(Drop)]
pub struct PartPlan {
    /// Its pieces, each with the number of the producer's part for each selection, in the order of the body. A part that selects
    /// nothing may stay as it is, whatever its pieces are.
    pub pieces: Vec<FoldPiece>,
    /// How many selections from the producer the body has.
    pub selected: usize,
}

/// What is found of one part.
#[derive(Drop)]
pub struct Planned {
    plan: PartPlan,
    count: usize,
}

/// What is found of the first parts.
#[derive(Drop)]
pub struct Plans {
    parts: Vec<PartPlan>,
    count: usize,
    is_used: bool,
}

/// The plan of a fold of a producer into a consumer of this operation and these parts: for each part its pieces. There is a plan exactly where the
/// consumer is that of a foldable pair, so far as it can be seen at it: each of its parts uses the producer in selections alone, at its index plus numbers
/// that stay inside of the producer's frame; the pieces are at most 64 in all, with no period above 4,096; bodies stay small enough; and some part selects.
/// A bound of the producer's grids that leaves 64 bits when it is moved back gives no plan, which bounds within 2^62 of 0 never do.
///
/// The table has what is known of variables before the consumer, and is left as it was.
///
/// # Errors
///
/// `Memory`: there is none for the plan.
pub fn fold_plan(
    alloc: Global,
    producer: &Producer<'_>,
    op: PartedOp,
    parts: &[CorePart],
    called: &CalledShapes,
    facts: &mut FactTable,
) -> Result<Option<Vec<PartPlan>>, Memory>
    ensures plan { IfOk result (λ found. IfSome found (λ plans. (s : Site) (base : Base) (made : Operation) →
        IsPlanned (shapes_of called.now) (facts_of facts.old) (producer_of producer.now s base made) op (map part_term parts.now) plans.items)) }
    ensures none { IfOk result (λ found. IfNone found (IsNear producer.now → (s : Site) (base : Base) (made : Operation) →
        Takes (shapes_of called.now) (facts_of facts.old) (producer_of producer.now s base made) op (terms parts.now) → ⊥)) }
    ensures facts { OnOk result (facts.new ≡ facts.old) }
{
    if !avoids_all(producer.var, op.operands().as_slice()) {
        return Ok(None);
    }
    let grids = grids_of_parts(alloc, producer.parts)?;
    let mut plans = no_plans(alloc);
    for part in parts {
        if !add_part(alloc, producer, &grids, part, called, facts, &mut plans)? {
            return Ok(None);
        }
    }
    if plans.is_used {
        Ok(Some(plans.parts))
    } else {
        Ok(None)
    }
}

fn no_plans(alloc: Global) -> Plans
    ensures parts { result.parts.items ≡ [] }
    ensures count { result.count ≡ 0 }
    ensures used { result.is_used ≡ false }
{
    Plans {
        parts: Vec::new(alloc),
        count: 0,
        is_used: false,
    }
}

/// Appends the plan of one part, if it can take from the producer, and if the pieces stay few.
fn add_part(
    alloc: Global,
    producer: &Producer<'_>,
    grids: &[Grid],
    part: &CorePart,
    called: &CalledShapes,
    facts: &mut FactTable,
    plans: &mut Plans,
) -> Result<bool, Memory>
    requires grids { grids.now ≡ grids_of (terms producer.now.parts.now) }
    requires few { plans.old.count ≤ 64 }
    ensures added { result ≡ Ok true → (whole rest : List PartTerm) (s : Site) (base : Base) (made : Operation) →
        Building (shapes_of called.now) (facts_of facts.old) (producer_of producer.now s base made) whole (part_term part.now ∷ rest) plans.old →
        Building (shapes_of called.now) (facts_of facts.old) (producer_of producer.now s base made) whole rest plans.new }
    ensures few { OnOk result (plans.new.count ≤ 64) }
    ensures none { result ≡ Ok false → IsNear producer.now → (whole rest : List PartTerm) (s : Site) (base : Base) (made : Operation) →
        Building (shapes_of called.now) (facts_of facts.old) (producer_of producer.now s base made) whole (part_term part.now ∷ rest) plans.old →
        CanTake (shapes_of called.now) (facts_of facts.old) (producer_of producer.now s base made) whole → ⊥ }
    ensures facts { OnOk result (facts.new ≡ facts.old) }
{
    let Some(planned) = part_plan(alloc, producer, grids, part, called, facts)? else {
        return Ok(false);
    };
    push_plan(planned, plans)
}

/// Appends a plan, if the pieces stay few.
fn push_plan(planned: Planned, plans: &mut Plans) -> Result<bool, Memory>
    requires few { plans.old.count ≤ 64 }
    requires some { planned.count ≤ 64 }
    ensures added { result ≡ Ok true → Added plans.old planned plans.new }
    ensures few { OnOk result (plans.new.count ≤ 64) }
    ensures many { result ≡ Ok false → 64 < plans.old.count + planned.count }
{
    let count = plans.count + planned.count;
    if count > MOST_PIECES {
        return Ok(false);
    }
    plans.count = count;
    plans.is_used = is_used(plans.is_used, planned.plan.selected);
    plans.parts.push(planned.plan)?;
    Ok(true)
}

fn is_used(before: bool, count: usize) -> bool
    ensures { result ≡ (before || nat_lt 0 count) }
{
    before || 0 < count
}

/// The plan of one part, if it can take from the producer.
fn part_plan(
    alloc: Global,
    producer: &Producer<'_>,
    grids: &[Grid],
    part: &CorePart,
    called: &CalledShapes,
    facts: &mut FactTable,
) -> Result<Option<Planned>, Memory>
    requires { grids.now ≡ grids_of (terms producer.now.parts.now) }
    ensures few { IfOk result (λ found. IfSome found (λ planned. planned.count ≤ 64)) }
    ensures plan { IfOk result (λ found. IfSome found (λ planned. (s : Site) (base : Base) (made : Operation) →
        PartPlanned (shapes_of called.now) (facts_of facts.old) (producer_of producer.now s base made) (part_term part.now) planned.plan planned.plan.selected
        planned.count)) }
    ensures none { IfOk result (λ found. IfNone found (IsNear producer.now → (s : Site) (base : Base) (made : Operation) (selected count : ℕ) → count ≤ 64 →
        PartFolds (shapes_of called.now) (facts_of facts.old) (producer_of producer.now s base made) (part_term part.now).head (part_term part.now).body
        selected count → ⊥)) }
    ensures facts { OnOk result (facts.new ≡ facts.old) }
{
    let Some(offsets) = selected_offsets(alloc, producer.var, part, called, facts)? else {
        return Ok(None);
    };
    let selected = offsets.len();
    if !part_has_room(part, selected, producer.parts) {
        return Ok(None);
    }
    let Some(cut) = cut_part(alloc, part, &offsets, producer.frame, grids)? else {
        return Ok(None);
    };
    Ok(Some(Planned {
        plan: PartPlan {
            pieces: cut.pieces,
            selected,
        },
        count: cut.count,
    }))
}

/// The grids of all parts.
fn grids_of_parts(alloc: Global, parts: &[CorePart]) -> Result<Vec<Grid>, Memory>
    ensures { IfOk result (λ grids. grids.items ≡ grids_of (terms parts.now)) }
{
    let mut grids = Vec::new(alloc);
    for part in parts {
        push_grid(alloc, part, &mut grids)?;
    }
    Ok(grids)
}

fn push_grid(alloc: Global, part: &CorePart, grids: &mut Vec<Grid>) -> Result<(), Memory>
    ensures { OnOk result (grids.new.items ≡ grids.old.items ++ (part_term part.now).head.grid ∷ []) }
{
    grids.push(part.grid.copy(alloc)?)?;
    Ok(())
}

/// A part's grid, cut for a fold.
fn cut_part(
    alloc: Global,
    part: &CorePart,
    offsets: &[Vec<i32>],
    frame: &Grid,
    grids: &[Grid],
) -> Result<Option<Cut>, Memory>
    ensures cut { IfOk result (λ found. IfSome found (λ cut.
        IsCut frame.now (part_term part.now).head.grid grids.now (vectors offsets.now) cut.pieces.items cut.count)) }
    ensures none { IfOk result (λ found. IfNone found
        (IsDense frame.now → AreNear grids.now → HasCut frame.now (part_term part.now).head.grid grids.now (vectors offsets.now) → ⊥)) }
{
    fold_pieces(alloc, &part.grid, offsets, frame, grids)
}

fn part_has_room(part: &CorePart, selected: usize, parts: &[CorePart]) -> bool
    ensures { IsTrue result ↔ HasRoom (part_term part.now).body selected (terms parts.now) }
{
    has_room(&part.body, selected, parts)
}

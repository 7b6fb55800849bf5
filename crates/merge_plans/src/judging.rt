//! Whether the body of a part is bindings that never fault, and an inner loop.

ghost use Rattle.std.specs.Prelude.{◌≡◌, ◌↔◌, ◌≤◌, ◌+◌, IsTrue, IfOk, OnOk, IfSome, IfNone, ℕ, [], ◌∷◌, length, map, option_map};
ghost use Rattle.core_ir.specs.declared.tree.PartedOp.TheVariants.{Genarray};
ghost use Rattle.core_ir.specs.declared.tree.Var.{Var as Variable};
ghost use Rattle.core_ir.specs.Terms.{Parted};
ghost use Rattle.core_ir.specs.View.{let_term, part_term, parted_term};
ghost use Rattle.core_loops.specs.Loops.{binders as bound_number, FEW};
ghost use Rattle.core_loops.specs.Pairs.{AvoidsLets, count_parts};
ghost use Rattle.fact_table.specs.Table.{facts_of};
ghost use Rattle.plain_facts.specs.Called.{shapes_of};
ghost use Rattle.merge_plans.specs.scalarisable.Around.{are_total};
ghost use Rattle.merge_plans.specs.Inners.{HasInner, IsInner, parts_in};
ghost use Rattle.merge_plans.specs.Mergeable.{FitBehind, MOST_AXES};
ghost use Rattle.merge_plans.specs.Openings.{nest_term, opened};

use crate::finding::{Nest, nest_of};
use crate::grids::same_axes;
use crate::scalarisable::{are_passed, none_use};
use core_ir::{CorePart, Let, PartedLoop, PartedOp, Var};
use core_uses::binders;
use fact_table::FactTable;
use plain_facts::CalledShapes;
use sac_base::{Base, Grid, Memory};
use std::alloc::Global;

/// The most variables in a body.
const MOST_BINDERS: u64 = 65_536;

/// The most axes of a grid.
const GRID_AXES: usize = 8;

/// How many parts the inner loop of a part has, if the part's body is bindings that never fault and a loop of this frame and base, and if its grids fit
/// behind the part's own.
pub fn inner_count(
    alloc: Global,
    part: &CorePart,
    frame: &Grid,
    base: Base,
    called: &CalledShapes,
    facts: &mut FactTable,
) -> Result<Option<usize>, Memory>
    ensures some { IfOk result (λ found. IfSome found (λ count.
        IsInner (shapes_of called.now) (facts_of facts.old) frame.now base (part_term part.now) count)) }
    ensures none { IfOk result (λ found. IfNone found ((count : ℕ) →
        IsInner (shapes_of called.now) (facts_of facts.old) frame.now base (part_term part.now) count → ⊥)) }
    ensures facts { OnOk result (facts.new ≡ facts.old) }
{
    let Some(nest) = nest_in(part) else {
        return Ok(None);
    };
    if !is_inner_of(&nest, part, frame, base) {
        return Ok(None);
    }
    if !has_room(part) {
        return Ok(None);
    }
    if is_passed(alloc, part, &nest, called, facts)? {
        Ok(Some(count_of(nest.inner)))
    } else {
        Ok(None)
    }
}

fn nest_in(part: &CorePart) -> Option<Nest<'_>>
    ensures { option_map nest_term result ≡ opened (part_term part.now).body }
{
    nest_of(&part.body)
}

/// Whether the bindings around a loop in a part's body never fault.
fn is_passed(
    alloc: Global,
    part: &CorePart,
    nest: &Nest<'_>,
    called: &CalledShapes,
    facts: &mut FactTable,
) -> Result<bool, Memory>
    ensures total { IfOk result (λ total. total ≡ are_total (shapes_of called.now) (part_term part.now).head.grid (facts_of facts.old)
        (part_term part.now).head.index (nest_term nest.now).before (nest_term nest.now).after) }
    ensures facts { OnOk result (facts.new ≡ facts.old) }
{
    are_passed(
        alloc,
        &part.grid,
        part.index,
        nest.before,
        nest.after,
        called,
        facts,
    )
}

fn is_inner_of(nest: &Nest<'_>, part: &CorePart, frame: &Grid, base: Base) -> bool
    ensures { IsTrue result ↔ HasInner (part_term part.now).head.grid frame.now base (nest_term nest.now) }
{
    is_inner(nest, &part.grid, frame, base)
}

/// How many parts a loop has.
fn count_of(inner: &PartedLoop) -> usize
    ensures { result ≡ count_parts (parts_in (parted_term inner.now)) }
{
    let parts = inner.parts.as_slice();
    parts.len()
}

/// Whether the body of a part binds few variables.
fn has_room(part: &CorePart) -> bool
    ensures { IsTrue result ↔ (bound_number (part_term part.now).body ≤ FEW) }
{
    binders(&part.body) <= MOST_BINDERS
}

/// Whether a loop is the result of its body, of scalar cells and of this frame and base, whether no other binding uses it, and whether its grids fit behind
/// the part's own.
fn is_inner(nest: &Nest<'_>, grid: &Grid, frame: &Grid, base: Base) -> bool
    ensures { IsTrue result ↔ HasInner grid.now frame.now base (nest_term nest.now) }
{
    let Some(target) = only_result(nest.targets, nest.results) else {
        return false;
    };
    if !has_form(nest.inner, frame, base) {
        return false;
    }
    fit_behind(grid, nest.inner) && is_unused(target, nest.before, nest.after)
}

/// Whether no binding uses a variable.
fn is_unused(target: Var, before: &[Let], after: &[Let]) -> bool
    ensures { IsTrue result ↔ (AvoidsLets target (map let_term before.now) × AvoidsLets target (map let_term after.now)) }
{
    none_use(target, before) && none_use(target, after)
}

/// The only target, if it is the only result.
fn only_result(targets: &[Var], results: &[Var]) -> Option<Var>
    ensures some { IfSome result (λ x. (targets.now ≡ x ∷ []) × (results.now ≡ x ∷ [])) }
    ensures none { IfNone result ((x : Variable) → targets.now ≡ x ∷ [] → results.now ≡ x ∷ [] → ⊥) }
{
    if targets.len() == 1 && results.len() == 1 && targets[0].0 == results[0].0 {
        Some(targets[0])
    } else {
        None
    }
}

/// Whether a parted loop makes an array of scalar cells, with this frame and base.
fn has_form(inner: &PartedLoop, frame: &Grid, base: Base) -> bool
    ensures { IsTrue result ↔ (parted_term inner.now ≡ Parted frame.now base [] Genarray (parts_in (parted_term inner.now))) }
{
    is_genarray(inner.op)
        && inner.base == base
        && inner.cell.rank() == 0
        && same_axes(inner.frame.axes(), frame.axes())
}

/// Whether a parted loop makes a new array.
pub fn is_genarray(op: PartedOp) -> bool
    ensures { IsTrue result ↔ (op ≡ Genarray) }
{
    matches!(op, PartedOp::Genarray)
}

/// Whether the grid of each part of a loop fits behind this one.
fn fit_behind(grid: &Grid, inner: &PartedLoop) -> bool
    ensures { IsTrue result ↔ FitBehind grid.now (parts_in (parted_term inner.now)) }
{
    for part in &inner.parts {
        if !fits_behind(grid, part) {
            return false;
        }
    }
    true
}

fn fits_behind(grid: &Grid, part: &CorePart) -> bool
    ensures { IsTrue result ↔ (length grid.now + length (part_term part.now).head.grid ≤ MOST_AXES) }
{
    grid.axes().len() + part.grid.axes().len() <= GRID_AXES
}

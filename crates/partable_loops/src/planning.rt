ghost use Rattle.std.specs.Prelude.{◌≡◌, map, IfOk, IfSome, IfNone};
ghost use Rattle.sac_base.specs.declared.base.Base.{Base};
ghost use Rattle.sac_base.specs.declared.site.Site.{Site};
ghost use Rattle.core_ir.specs.Terms.{gens_of};
ghost use Rattle.core_ir.specs.View.{gen_term};
ghost use Rattle.fact_table.specs.Table.{facts_of};
ghost use Rattle.partable_loops.specs.Planned.{IsPlannable, PlanFits, needed_parts};
ghost use Rattle.partable_loops.specs.Refused.{Decides};

use crate::cuts::{cut, held};
use crate::framing::frame_of;
use crate::literals::literal_bounds;
use crate::refusal::Unplanned;
use crate::room::has_room;
use core_ir::{CoreGen, CoreOp};
use fact_table::FactTable;
use sac_base::{Grid, Memory, Shape};
use std::alloc::Global;

/// The plan of a parted loop in the place of a with-loop.
#[derive(Drop)]
pub struct PartPlan {
    /// The indices.
    pub frame: Grid,
    /// The shape of a cell.
    pub cell: Shape,
    /// Disjoint grids, each with the place of the first generator that has its members, or none where no generator has one. Together they are the
    /// frame; of a fold those without a generator are left out.
    pub parts: Vec<(Grid, Option<u64>)>,
}

/// The plan of the parted loop that a with-loop can become. There is none exactly where the with-loop is not partable, or the known shape of a modarray's
/// array is of more elements than an array may have.
///
/// The table has what is known of variables before the with-loop; `above` is one more than the greatest number of a variable of the function.
///
/// # Errors
///
/// `Memory`: there is none for the plan.
pub fn part_plan(
    alloc: Global,
    table: &FactTable,
    above: u64,
    op: CoreOp,
    gens: &[CoreGen],
) -> Result<Option<PartPlan>, Memory>
    ensures planned { IfOk result (λ found. IfSome found (λ plan. (s : Site) (base : Base) →
        PlanFits (facts_of table.now) above s op (gens_of (map gen_term gens.now)) base plan)) }
    ensures refused { IfOk result (λ found. IfNone found ((s : Site) →
        IsPlannable (facts_of table.now) above s op (gens_of (map gen_term gens.now)) → ⊥)) }
{
    match planned(alloc, table, above, op, gens) {
        Ok(plan) => Ok(Some(plan)),
        Err(Unplanned::NotPartable) => Ok(None),
        Err(Unplanned::Memory) => Err(Memory),
    }
}

fn planned(
    alloc: Global,
    table: &FactTable,
    above: u64,
    op: CoreOp,
    gens: &[CoreGen],
) -> Result<PartPlan, Unplanned>
    ensures { Decides result
        (λ plan. (s : Site) (base : Base) → PlanFits (facts_of table.now) above s op (gens_of (map gen_term gens.now)) base plan)
        ((s : Site) × IsPlannable (facts_of table.now) above s op (gens_of (map gen_term gens.now))) }
{
    let bounds = literal_bounds(alloc, table, gens)?;
    let framed = frame_of(alloc, table, op, &bounds)?;
    let parts = cut(alloc, &framed.frame, &framed.grids)?;
    if !has_room(above, gens) {
        return Err(Unplanned::NotPartable);
    }
    Ok(PartPlan {
        frame: framed.frame,
        cell: framed.cell,
        parts: needed(op, parts),
    })
}

/// The parts that an operation needs: a fold has no cell where no generator holds.
fn needed(op: CoreOp, parts: Vec<(Grid, Option<u64>)>) -> Vec<(Grid, Option<u64>)>
    ensures { result.items ≡ needed_parts op parts.items }
{
    match op {
        CoreOp::Fold { .. } => held(parts),
        _ => parts,
    }
}

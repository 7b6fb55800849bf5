//! One with-loop that becomes a parted loop.

ghost use Rattle.std.specs.Prelude.{◌≡◌, suc, ◌+◌, map, IfOk, OnOk, IfSome, IfNone};
ghost use Rattle.sac_base.specs.declared.site.Site.{Site as SiteOf};
ghost use Rattle.core_ir.specs.Terms.{Parted, gens_of};
ghost use Rattle.core_ir.specs.Terms.{parts_of as parts_in};
ghost use Rattle.core_ir.specs.View.{gen_term, right_term};
ghost use Rattle.fact_table.specs.Table.{fact_of, facts_of};
ghost use Rattle.plain_facts.specs.known_rights.Anywhere.{IsKnownAnywhere};
ghost use Rattle.parted_bodies.specs.Making.{binds_of, made_parts};
ghost use Rattle.parted_bodies.specs.Making.{parted_op as parted_op_of};
ghost use Rattle.variable_bases.specs.Table.{base_in};
ghost use Rattle.norm_walk.specs.Replacing.{IsLeft, IsPlanned, ReplacedOrLeft};
ghost use Rattle.norm_walk.specs.Replacing.{old_base as old_base_of};

use crate::given::Given;
use core_ir::{CoreGen, CoreOp, PartedLoop, WithLoop};
use fact_table::FactTable;
use partable_loops::{PartPlan, part_plan};
use parted_bodies::{Progress, base_var, parted_op, parts_of};
use plain_facts::known_rights::KnownRight;
use sac_base::{Base, Memory, Site};
use std::alloc::Global;

/// The plan of a parted loop, and the base of its result.
#[derive(Drop)]
struct BasedPlan {
    base: Base,
    plan: PartPlan,
}

/// The with-loop itself, if it can become a parted loop and its base is that of a variable of the function where the walk began.
pub fn replace_with(
    alloc: Global,
    op: CoreOp,
    gens: Vec<CoreGen>,
    site: Site,
    given: &Given<'_>,
    table: &FactTable,
    progress: &mut Progress,
) -> Result<KnownRight, Memory>
    ensures replaced { IfOk result (λ new. ReplacedOrLeft (base_in given.now.bases.now) given.now.first progress.old progress.new (facts_of table.now)
        site op (map gen_term gens.items) (right_term new.right)) }
    ensures known { IfOk result (λ new. IsKnownAnywhere (right_term new.right) (map fact_of new.values.items)) }
{
    match plan_of(alloc, op, &gens, given, table, progress.next)? {
        Some(planned) => parted_loop(alloc, op, &gens, site, planned, progress),
        None => Ok(KnownRight::of_with(alloc, WithLoop { gens, op })),
    }
}

fn plan_of(
    alloc: Global,
    op: CoreOp,
    gens: &[CoreGen],
    given: &Given<'_>,
    table: &FactTable,
    above: u64,
) -> Result<Option<BasedPlan>, Memory>
    ensures planned { IfOk result (λ found. IfSome found (λ new. IsPlanned (base_in given.now.bases.now) given.now.first (facts_of table.now) above
        op (gens_of (map gen_term gens.now)) new.base new.plan)) }
    ensures left { IfOk result (λ found. IfNone found ((s : SiteOf) → IsLeft (base_in given.now.bases.now) given.now.first above (facts_of table.now) s
        op (gens_of (map gen_term gens.now)))) }
{
    let Some(base) = old_base(op, given) else {
        return Ok(None);
    };
    match part_plan(alloc, table, above, op, gens)? {
        Some(plan) => {
            if given.is_spent(above) {
                return Err(Memory);
            }
            Ok(Some(BasedPlan { base, plan }))
        }
        None => Ok(None),
    }
}

/// The base of a with-loop, if it is that of a variable of the function where the walk began.
fn old_base(op: CoreOp, given: &Given<'_>) -> Option<Base>
    ensures { result ≡ old_base_of (base_in given.now.bases.now) given.now.first op }
{
    let source = base_var(op);
    if u64::from(source.0) < given.first {
        given.bases.of(source)
    } else {
        None
    }
}

fn parted_loop(
    alloc: Global,
    op: CoreOp,
    gens: &[CoreGen],
    site: Site,
    planned: BasedPlan,
    progress: &mut Progress,
) -> Result<KnownRight, Memory>
    ensures right { IfOk result (λ new. right_term new.right ≡ Parted planned.plan.frame planned.base planned.plan.cell (parted_op_of op)
        (parts_in (made_parts op site (map gen_term gens.now) planned.plan.parts.items progress.old.next))) }
    ensures known { IfOk result (λ new. IsKnownAnywhere (right_term new.right) (map fact_of new.values.items)) }
    ensures after { OnOk result (progress.new ≡ record {
      next = progress.old.next
          + binds_of (made_parts op site (map gen_term gens.now) planned.plan.parts.items progress.old.next);
      replaced = suc progress.old.replaced;
    }) }
{
    let BasedPlan { base, plan } = planned;
    let PartPlan { frame, cell, parts } = plan;
    let parts = parts_of(alloc, op, site, gens, parts, progress)?;
    progress.count()?;
    let op = parted_op(op);
    KnownRight::of_parted(
        alloc,
        PartedLoop {
            frame,
            base,
            cell,
            op,
            parts,
        },
    )
}

//! One loop.

ghost use Rattle.std.specs.Prelude.{◌≡◌, IfOk, OnOk, map};
ghost use Rattle.core_ir.specs.View.{parted_term, right_term};
ghost use Rattle.core_facts.specs.Facts.{right_facts};
ghost use Rattle.fact_table.specs.Table.{fact_of, facts_of};
ghost use Rattle.plain_facts.specs.Called.{shapes_of};
ghost use Rattle.merge_walk.specs.Here.{BindingMerged, MergedOrNot};

use core_ir::{PartedLoop, PartedOp, Right, Var};
use fact_table::FactTable;
use merge_plans::merge_plan;
use merged_parts::merged_parts;
use parted_bodies::Progress;
use plain_facts::CalledShapes;
use plain_facts::known_rights::KnownRight;
use sac_base::{Memory, Shape};
use std::alloc::Global;

/// The right side of a binding, merged with the loops in its cells if it is a loop that can be, and if it is bound to one variable.
pub fn merge_here(
    alloc: Global,
    targets: &[Var],
    known: KnownRight,
    called: &CalledShapes,
    table: &mut FactTable,
    progress: &mut Progress,
) -> Result<KnownRight, Memory>
    ensures merged { IfOk result (λ new. BindingMerged (shapes_of called.now) (facts_of table.old) progress.old progress.new targets.now
        (right_term known.right) (right_term new.right)) }
    ensures known { IfOk result (λ new. map fact_of known.values.items ≡ right_facts (shapes_of called.now) (right_term known.right) (facts_of table.old)
        → map fact_of new.values.items ≡ right_facts (shapes_of called.now) (right_term new.right) (facts_of table.old)) }
    ensures table { OnOk result (table.new ≡ table.old) }
{
    if targets.len() != 1 {
        return Ok(known);
    }
    merge_one(alloc, known, called, table, progress)
}

/// The same of a right side that is bound to one variable.
fn merge_one(
    alloc: Global,
    known: KnownRight,
    called: &CalledShapes,
    table: &mut FactTable,
    progress: &mut Progress,
) -> Result<KnownRight, Memory>
    ensures merged { IfOk result (λ new. MergedOrNot (shapes_of called.now) (facts_of table.old) progress.old progress.new (right_term known.right)
        (right_term new.right)) }
    ensures known { IfOk result (λ new. map fact_of known.values.items ≡ right_facts (shapes_of called.now) (right_term known.right) (facts_of table.old)
        → map fact_of new.values.items ≡ right_facts (shapes_of called.now) (right_term new.right) (facts_of table.old)) }
    ensures table { OnOk result (table.new ≡ table.old) }
{
    let KnownRight { right, values } = known;
    match right {
        Right::Parted(outer) => {
            let made = merge_loop(alloc, outer, called, table, progress)?;
            KnownRight::of_parted(alloc, made)
        }
        other => Ok(KnownRight {
            right: other,
            values,
        }),
    }
}

/// A loop, merged with the loops in its cells if it can be.
fn merge_loop(
    alloc: Global,
    outer: PartedLoop,
    called: &CalledShapes,
    table: &mut FactTable,
    progress: &mut Progress,
) -> Result<PartedLoop, Memory>
    ensures merged { IfOk result (λ new. MergedOrNot (shapes_of called.now) (facts_of table.old) progress.old progress.new (parted_term outer)
        (parted_term new)) }
    ensures table { OnOk result (table.new ≡ table.old) }
{
    let Some(plan) = merge_plan(alloc, &outer, progress.next, called, table)? else {
        return Ok(outer);
    };
    let PartedLoop { base, parts, .. } = outer;
    let parts = merged_parts(alloc, parts, progress)?;
    progress.count()?;
    Ok(PartedLoop {
        frame: plan.frame,
        base,
        cell: Shape::empty(alloc),
        op: PartedOp::Genarray,
        parts,
    })
}

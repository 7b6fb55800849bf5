//! All functions of the new core, one after another: each is gone through once.

ghost use Rattle.std.specs.Prelude.{◌≡◌, ◌<◌, ◌^◌, length, IfOk, OnOk};
ghost use Rattle.core_ir.specs.View.{core_term};
ghost use Rattle.core_ir.specs.WellFormed.{IsWellFormed};
ghost use Rattle.core_facts.specs.constants.Called.{called as called_in};
ghost use Rattle.plain_facts.specs.Called.{shapes_of};
ghost use Rattle.specialise.specs.Plans.{entries, members, IsPlan};
ghost use Rattle.specialise.specs.Progress.{Grows, EntryPlannedAt, AllPlanned, AreCallsAt};

use crate::plan::Plan;
use crate::serve::serve_call;
use core_ir::Core;
use known_calls::{KnownCall, known_calls};
use plain_facts::CalledShapes;
use sac_base::Memory;
use std::alloc::Global;

/// Plans the instances that the calls in all functions need, in further instances too.
///
/// What an instance gives stays, so what is known in a function does not change while instances are added.
pub fn serve_all(alloc: Global, core: &Core, plan: &mut Plan) -> Result<(), Memory>
    ensures planned { IsWellFormed (core_term core.now) → IsPlan (core_term core.now) (entries plan.old.items.items) (members plan.old.groups.items)
        → OnOk result (IsPlan (core_term core.now) (entries plan.new.items.items) (members plan.new.groups.items)) }
    ensures grown { OnOk result (Grows (entries plan.old.items.items) (members plan.old.groups.items)
        (entries plan.new.items.items) (members plan.new.groups.items)) }
    ensures served { IsWellFormed (core_term core.now) → IsPlan (core_term core.now) (entries plan.old.items.items) (members plan.old.groups.items)
        → OnOk result (AllPlanned (core_term core.now) (entries plan.new.items.items) (members plan.new.groups.items)) }
    ensures main { OnOk result (plan.new.main ≡ plan.old.main) }
    ensures few { OnOk result (length plan.new.items.items < 2 ^ 32) }
{
    let called = CalledShapes::of_core(alloc, core)?;
    for next in 0..u32::MAX {
        if next as usize >= plan.items.len() {
            return Ok(());
        }
        serve_item(alloc, core, &called, plan, next as usize)?;
    }
    Err(Memory)
}

/// Plans the instances that the calls in a function need.
fn serve_item(
    alloc: Global,
    core: &Core,
    called: &CalledShapes,
    plan: &mut Plan,
    number: usize,
) -> Result<(), Memory>
    requires { shapes_of called.now ≡ called_in (core_term core.now) }
    ensures planned { IsWellFormed (core_term core.now) → IsPlan (core_term core.now) (entries plan.old.items.items) (members plan.old.groups.items)
        → OnOk result (IsPlan (core_term core.now) (entries plan.new.items.items) (members plan.new.groups.items)) }
    ensures grown { OnOk result (Grows (entries plan.old.items.items) (members plan.old.groups.items)
        (entries plan.new.items.items) (members plan.new.groups.items)) }
    ensures served { IsWellFormed (core_term core.now) → IsPlan (core_term core.now) (entries plan.old.items.items) (members plan.old.groups.items)
        → OnOk result (EntryPlannedAt (core_term core.now) (entries plan.old.items.items) number (entries plan.new.items.items)
        (members plan.new.groups.items)) }
    ensures main { OnOk result (plan.new.main ≡ plan.old.main) }
{
    let calls = calls_in(alloc, core, called, plan, number)?;
    for call in &calls {
        serve_call(alloc, core, plan, call)?;
    }
    Ok(())
}

/// The calls in the function of an item whose arguments have known shapes.
fn calls_in(
    alloc: Global,
    core: &Core,
    called: &CalledShapes,
    plan: &Plan,
    number: usize,
) -> Result<Vec<KnownCall>, Memory>
    ensures { IfOk result (λ calls. AreCallsAt (core_term core.now) (shapes_of called.now) (entries plan.now.items.items) number calls.items) }
{
    let Some(item) = plan.items.get(number) else {
        return Ok(Vec::new(alloc));
    };
    match core.functions.get(item.source as usize) {
        Some(source) => known_calls(alloc, source, &item.types, called),
        None => Ok(Vec::new(alloc)),
    }
}

//! The instances that a call needs.

ghost use Rattle.std.specs.Prelude.{◌≡◌, [], IfOk, OnOk, slice_get, unwrap_or, nat_lt};
ghost use Rattle.core_ir.specs.View.{core_term};
ghost use Rattle.core_ir.specs.WellFormed.{IsWellFormed};
ghost use Rattle.specialise.specs.Plans.{entries, members, IsPlan};
ghost use Rattle.specialise.specs.Progress.{Grows, ServesPlace, CallPlanned};
ghost use Rattle.specialise.specs.Serving.{Serves, SourceFound, wants_more, types_within};
ghost use Rattle.specialise.specs.Tables.{known_count as count_known};

use crate::plan::{Item, Plan, add, join};
use crate::tables::{exact_types, forms_at, has_same, known_count, table_of};
use core_ir::Core;
use known_calls::KnownCall;
use sac_base::{ArrayType, Form, Memory};
use shape_types::pick;
use std::alloc::Global;

/// The most instances with known shapes that further ones are made for.
pub const MOST: usize = 16;

/// Plans the instances that a call with arguments of known shapes needs: one for the bases of each own instance that has arrays of these shapes.
pub fn serve_call(
    alloc: Global,
    core: &Core,
    plan: &mut Plan,
    call: &KnownCall,
) -> Result<(), Memory>
    ensures planned { IsWellFormed (core_term core.now) → IsPlan (core_term core.now) (entries plan.old.items.items) (members plan.old.groups.items)
        → OnOk result (IsPlan (core_term core.now) (entries plan.new.items.items) (members plan.new.groups.items)) }
    ensures grown { OnOk result (Grows (entries plan.old.items.items) (members plan.old.groups.items)
        (entries plan.new.items.items) (members plan.new.groups.items)) }
    ensures served { IsWellFormed (core_term core.now) → IsPlan (core_term core.now) (entries plan.old.items.items) (members plan.old.groups.items)
        → OnOk result (CallPlanned (core_term core.now) (entries plan.new.items.items) (members plan.new.groups.items)
        (call.now.group, call.now.shapes.items)) }
    ensures main { OnOk result (plan.new.main ≡ plan.old.main) }
{
    if !has_room(plan, call.group) {
        return Ok(());
    }
    let own = members_of(&core.groups, call.group);
    for place in own {
        serve_place(alloc, own, plan, call, *place)?;
    }
    Ok(())
}

/// Plans the instance that a call needs with the bases of an own instance, if that has arrays of these shapes.
fn serve_place(
    alloc: Global,
    own: &[u32],
    plan: &mut Plan,
    call: &KnownCall,
    place: u32,
) -> Result<(), Memory>
    ensures served { OnOk result (ServesPlace own.now call.now.group call.now.shapes.items place (entries plan.old.items.items)
        (members plan.old.groups.items) (entries plan.new.items.items) (members plan.new.groups.items)) }
    ensures main { OnOk result (plan.new.main ≡ plan.old.main) }
{
    match forms_at(alloc, &plan.items, place, &call.shapes)? {
        Some(forms) => serve_forms(alloc, own, plan, call.group, &forms),
        None => Ok(()),
    }
}

/// Plans the instance for arguments of these forms, if there is none yet, and not 16 with known shapes.
pub fn serve_forms(
    alloc: Global,
    own: &[u32],
    plan: &mut Plan,
    group: u32,
    forms: &[Form],
) -> Result<(), Memory>
    ensures served { OnOk result (Serves own.now group forms.now (entries plan.old.items.items) (members plan.old.groups.items)
        (entries plan.new.items.items) (members plan.new.groups.items)) }
    ensures main { OnOk result (plan.new.main ≡ plan.old.main) }
{
    let types = exact_types(alloc, forms)?;
    let is_wanted = wants(plan, group, &types);
    if !is_wanted {
        return Ok(());
    }
    let Some(source) = source_of(alloc, own, &plan.items, forms)? else {
        return Ok(());
    };
    let number = add(plan, Item { source, types })?;
    join(&mut plan.groups, group, number)
}

/// The least own instance that takes arguments of these forms.
fn source_of(
    alloc: Global,
    own: &[u32],
    items: &[Item],
    forms: &[Form],
) -> Result<Option<u32>, Memory>
    ensures { IfOk result (λ source. SourceFound (entries items.now) own.now forms.now source) }
{
    let table = table_of(alloc, items, own)?;
    match pick(&table, forms) {
        Some(k) if k < own.len() => Ok(Some(own[k])),
        Some(_) => Err(Memory),
        None => Ok(None),
    }
}

/// Whether a group has no instance for these types, and less than 16 with known shapes.
fn wants(plan: &Plan, group: u32, types: &[ArrayType]) -> bool
    ensures { result ≡ wants_more (types_within (entries plan.now.items.items) (members plan.now.groups.items) group) types.now }
{
    !has_same(&plan.items, members_of(&plan.groups, group), types) && has_room(plan, group)
}

/// Whether a group has less than 16 instances with known shapes.
fn has_room(plan: &Plan, group: u32) -> bool
    ensures { result ≡ nat_lt (count_known (types_within (entries plan.now.items.items) (members plan.now.groups.items) group)) 16 }
{
    known_count(&plan.items, members_of(&plan.groups, group)) < MOST
}

/// The members of a group. One that is not there has none.
fn members_of(groups: &[Vec<u32>], group: u32) -> &[u32]
    ensures { result.now ≡ unwrap_or (slice_get (members groups.now) group) [] }
{
    match groups.get(group as usize) {
        Some(group) => group,
        None => &[],
    }
}

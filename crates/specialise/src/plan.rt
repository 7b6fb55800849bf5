//! Which instances the new core has.

ghost use Rattle.std.specs.Prelude.{◌≡◌, ◌++◌, [], ◌∷◌, length, map, IfOk, OnOk};
ghost use Rattle.core_ir.specs.View.{core_term, fun_term};
ghost use Rattle.specialise.specs.Plans.{entry, entries, members, owns, joined};

use core_ir::{Core, Var};
use sac_base::{ArrayType, Memory, copy_type};
use std::alloc::Global;

/// A function of the core, by its place, and types for its parameters.
#[derive(Drop)]
pub struct Item {
    pub source: u32,
    pub types: Vec<ArrayType>,
}

/// The functions of the new core: those of the old one, and then further instances. Groups and main give them by their numbers in this list.
#[derive(Drop)]
pub struct Plan {
    pub items: Vec<Item>,
    pub groups: Vec<Vec<u32>>,
    pub main: u32,
}

/// The functions of a core alone.
pub fn plan_of(alloc: Global, core: &Core) -> Result<Plan, Memory>
    ensures items { IfOk result (λ plan. entries plan.items.items ≡ owns 0 (core_term core.now).functions) }
    ensures groups { IfOk result (λ plan. members plan.groups.items ≡ (core_term core.now).groups) }
    ensures main { IfOk result (λ plan. plan.main ≡ (core_term core.now).main) }
{
    Ok(Plan {
        items: own_items(alloc, core)?,
        groups: copy_groups(alloc, &core.groups)?,
        main: core.main,
    })
}

fn own_items(alloc: Global, core: &Core) -> Result<Vec<Item>, Memory>
    ensures { IfOk result (λ items. entries items.items ≡ owns 0 (core_term core.now).functions) }
{
    let mut items = Vec::new(alloc);
    for function in &core.functions {
        let source = u32::try_from(items.len()).map_err(|_| Memory)?;
        let types = param_types(alloc, &function.params)?;
        items.push(Item { source, types })?;
    }
    Ok(items)
}

fn param_types(alloc: Global, params: &[(Var, ArrayType)]) -> Result<Vec<ArrayType>, Memory>
    ensures { IfOk result (λ types. types.items ≡ map (λ p. p.1) params.now) }
{
    let mut types = Vec::new(alloc);
    for (_, ty) in params {
        types.push(copy_type(ty))?;
    }
    Ok(types)
}

fn copy_groups(alloc: Global, groups: &[Vec<u32>]) -> Result<Vec<Vec<u32>>, Memory>
    ensures { IfOk result (λ copy. members copy.items ≡ members groups.now) }
{
    let mut copy = Vec::new(alloc);
    for group in groups {
        copy.push(Vec::from_slice(alloc, group)?)?;
    }
    Ok(copy)
}

/// Puts an instance behind the others.
pub fn add(plan: &mut Plan, item: Item) -> Result<u32, Memory>
    ensures number { IfOk result (λ n. n ≡ length plan.old.items.items) }
    ensures items { OnOk result (entries plan.new.items.items ≡ entries plan.old.items.items ++ (entry item ∷ [])) }
    ensures groups { plan.new.groups ≡ plan.old.groups }
    ensures main { plan.new.main ≡ plan.old.main }
{
    let number = u32::try_from(plan.items.len()).map_err(|_| Memory)?;
    plan.items.push(item)?;
    Ok(number)
}

/// Puts a number behind those of a group, if that is there.
pub fn join(groups: &mut Vec<Vec<u32>>, group: u32, number: u32) -> Result<(), Memory>
    ensures { OnOk result (members groups.new.items ≡ joined (members groups.old.items) group number) }
{
    let group = group as usize;
    if group < groups.len() {
        groups[group].push(number)?;
    }
    Ok(())
}

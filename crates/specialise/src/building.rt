//! The new core.

ghost use Rattle.std.specs.Prelude.{◌≡◌, Some, map, zip, slice_get, IfOk};
ghost use Rattle.core_ir.specs.View.{core_term, fun_term};
ghost use Rattle.specialise.specs.Plans.{entries, members, function_at, retyped};
ghost use Rattle.specialise.specs.Orders.{numbers, IsBuilt};

use crate::order::{Key, order_of, places_in};
use crate::plan::{Item, Plan};
use crate::tables::copy_types;
use core_ir::{Core, CoreFun, Var, copy_function};
use sac_base::{ArrayType, Memory, copy_type};
use std::alloc::Global;

/// The core that a plan tells, with copies directly behind their sources.
pub fn build(alloc: Global, core: &Core, plan: &Plan) -> Result<Core, Memory>
    ensures { IfOk result (λ new. IsBuilt (core_term core.now) (entries plan.now.items.items) (members plan.now.groups.items) plan.now.main (core_term new)) }
{
    let order = order_of(alloc, &plan.items)?;
    let places = places_in(alloc, &order)?;
    let functions = functions_in(alloc, core, &plan.items, &order)?;
    let groups = renumbered_groups(alloc, &plan.groups, &places)?;
    let main = place_of(&places, plan.main)?;
    Ok(Core {
        functions,
        groups,
        main,
    })
}

/// The functions of items, in an order.
fn functions_in(
    alloc: Global,
    core: &Core,
    items: &[Item],
    order: &[Key],
) -> Result<Vec<CoreFun>, Memory>
    ensures { IfOk result (λ fs. map (λ f. Some (fun_term f)) fs.items ≡ map (function_at (core_term core.now) (entries items.now)) (numbers order.now)) }
{
    let mut functions = Vec::new(alloc);
    for key in order {
        functions.push(function_of(alloc, core, items, key.number)?)?;
    }
    Ok(functions)
}

/// The function of an item, which has a source.
fn function_of(alloc: Global, core: &Core, items: &[Item], number: u32) -> Result<CoreFun, Memory>
    ensures { IfOk result (λ f. Some (fun_term f) ≡ function_at (core_term core.now) (entries items.now) number) }
{
    let item = items.get(number as usize).ok_or(Memory)?;
    let source = core.functions.get(item.source as usize).ok_or(Memory)?;
    retyped_function(alloc, source, &item.types)
}

/// A function with other types for its parameters.
fn retyped_function(alloc: Global, source: &CoreFun, types: &[ArrayType]) -> Result<CoreFun, Memory>
    ensures { IfOk result (λ f. fun_term f ≡ retyped (fun_term source.now) types.now) }
{
    let CoreFun {
        name,
        site,
        results,
        inline,
        body,
        ends,
        ..
    } = copy_function(alloc, source)?;
    let params = retyped_params(alloc, &source.params, types)?;
    Ok(CoreFun {
        name,
        site,
        params,
        results,
        inline,
        body,
        ends,
    })
}

fn retyped_params(
    alloc: Global,
    params: &[(Var, ArrayType)],
    types: &[ArrayType],
) -> Result<Vec<(Var, ArrayType)>, Memory>
    ensures { IfOk result (λ new. new.items ≡ zip (map (λ p. p.0) params.now) types.now) }
{
    let mut new = Vec::new(alloc);
    for k in 0..params.len().min(types.len()) {
        new.push((params[k].0, copy_type(&types[k])))?;
    }
    Ok(new)
}

fn renumbered_groups(
    alloc: Global,
    groups: &[Vec<u32>],
    places: &[u32],
) -> Result<Vec<Vec<u32>>, Memory>
    ensures { IfOk result (λ new. map (map Some) (members new.items) ≡ map (map (slice_get places.now)) (members groups.now)) }
{
    let mut new = Vec::new(alloc);
    for group in groups {
        new.push(renumbered(alloc, group, places)?)?;
    }
    Ok(new)
}

fn renumbered(alloc: Global, group: &[u32], places: &[u32]) -> Result<Vec<u32>, Memory>
    ensures { IfOk result (λ new. map Some new.items ≡ map (slice_get places.now) group.now) }
{
    let mut new = Vec::new(alloc);
    for number in group {
        new.push(place_of(places, *number)?)?;
    }
    Ok(new)
}

/// The place of an item, which has one.
fn place_of(places: &[u32], number: u32) -> Result<u32, Memory>
    ensures { IfOk result (λ place. Some place ≡ slice_get places.now number) }
{
    match places.get(number as usize) {
        Some(place) => Ok(*place),
        None => Err(Memory),
    }
}

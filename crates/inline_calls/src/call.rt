//! Which calls are inlined.

ghost use Rattle.std.specs.Prelude.{◌≡◌, ℕ, IfOk, IfSome, IfNone, map};
ghost use Rattle.core_ir.specs.Terms.{FunTerm};
ghost use Rattle.core_ir.specs.View.{core_term, fun_term, let_term};
ghost use Rattle.core_forms.specs.inlined_bodies.Inlining.{IsInstance, IsLeft, Fits, TooGreat, grown};
ghost use Rattle.inline_calls.specs.Measures.{IsSize};
ghost use Rattle.inline_calls.specs.Bindings.{GivesCall, LetInlined, MayStay};

use crate::place::inlined_bindings;
use crate::sizes::{Measured, Size, size_of};
use core_forms::inlined_bodies::Growth;
use core_ir::{Core, CoreFun, Let, Right, Var};
use sac_base::{Memory, Site};
use std::alloc::Global;

/// The most bindings that are put into a function, whose body has at most so many more than before.
const MOST_BINDINGS: u64 = 65_536;

/// The bindings that stand in the place of a call, and how far the body has grown by them.
#[derive(Drop)]
pub struct Inlined {
    pub lets: Vec<Let>,
    pub growth: Growth,
}

/// The only instance of a group, where it is inline.
fn instance_of(core: &Core, group: u32) -> Option<&CoreFun>
    ensures found { IfSome result (λ f. (place : ℕ) × IsInstance (core_term core.now) group place (fun_term f.now)) }
    ensures none { IfNone result ((place : ℕ) (f : FunTerm) → IsInstance (core_term core.now) group place f → ⊥) }
{
    let places = core.groups.get(group as usize)?;
    if places.len() != 1 {
        return None;
    }
    let function = core.functions.get(places[0] as usize)?;
    if function.inline {
        Some(function)
    } else {
        None
    }
}

/// How far a body has grown once a call of a function of this size is inlined, if there is room for it.
fn grown_with(growth: Growth, size: Size) -> Option<Growth>
    ensures fits { (f : FunTerm) → IsSize f size → IfSome result (λ g. Fits growth f × (g ≡ grown growth f)) }
    ensures none { (f : FunTerm) → IsSize f size → IfNone result (TooGreat growth f) }
{
    let count = growth.count.saturating_add(size.weight);
    let greatest = growth
        .above
        .saturating_sub(1)
        .saturating_add(size.above.saturating_sub(1));
    if count > MOST_BINDINGS || greatest >= u64::from(u32::MAX) {
        return None;
    }
    Some(Growth {
        count,
        above: growth.above + size.above,
    })
}

/// The size of the only instance of a group.
fn size_at(work: &Measured<'_>, group: u32, function: &CoreFun) -> Size
    ensures { (place : ℕ) → IsInstance (core_term work.now.core.now) group place (fun_term function.now) → IsSize (fun_term function.now) result }
{
    match work.size_in(group) {
        Some(size) => size,
        None => size_of(function),
    }
}

/// The bindings that stand in the place of a binding, where that is a call that is inlined.
pub fn inlined_call(
    alloc: Global,
    work: &Measured<'_>,
    growth: Growth,
    binding: &Let,
) -> Result<Option<Inlined>, Memory>
    ensures placed { IfOk result (λ o. IfSome o (λ i.
        LetInlined (core_term work.now.core.now) growth (let_term binding.now) (map let_term i.lets.items) i.growth)) }
    ensures left { IfOk result (λ o. IfNone o (MayStay (core_term work.now.core.now) growth (let_term binding.now).right)) }
{
    match &binding.right {
        Right::Call { group, args } => {
            inlined_instance(
                alloc,
                work,
                growth,
                &binding.targets,
                binding.site,
                *group,
                args,
            )
        }
        _ => Ok(None),
    }
}

/// The same of a call of a group.
fn inlined_instance(
    alloc: Global,
    work: &Measured<'_>,
    growth: Growth,
    targets: &[Var],
    site: Site,
    group: u32,
    args: &[Var],
) -> Result<Option<Inlined>, Memory>
    ensures placed { IfOk result (λ o. IfSome o (GivesCall (core_term work.now.core.now) growth targets.now site group args.now)) }
    ensures left { IfOk result (λ o. IfNone o (IsLeft (core_term work.now.core.now) growth group)) }
{
    let Some(function) = instance_of(work.core, group) else {
        return Ok(None);
    };
    let size = size_at(work, group, function);
    let Some(growth_after) = grown_with(growth, size) else {
        return Ok(None);
    };
    let Ok(by) = u32::try_from(growth.above) else {
        return Ok(None);
    };
    let lets = inlined_bindings(alloc, function, by, targets, site, args)?;
    Ok(Some(Inlined {
        lets,
        growth: growth_after,
    }))
}

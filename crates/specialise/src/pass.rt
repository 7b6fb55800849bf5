//! The pass.

ghost use Rattle.std.specs.Prelude.{◌≡◌, IfOk, OnOk, List, map};
ghost use Rattle.sac_base.specs.Arrays.{ArrayValue, form_of};
ghost use Rattle.sac_base.specs.declared.faults.Caps.{Caps};
ghost use Rattle.core_ir.specs.Outcome.{outcome};
ghost use Rattle.core_ir.specs.View.{core_term};
ghost use Rattle.core_ir.specs.WellFormed.{IsWellFormed};
ghost use Rattle.specialise.specs.Plans.{entries, members};
ghost use Rattle.specialise.specs.Mains.{MainPlanned, MainTakes, FewAdded};
ghost use Rattle.specialise.specs.Served.{CallsServed};

use crate::building::build;
use crate::plan::{Item, Plan, add, plan_of};
use crate::tables::{all_below, exact_types, item_types};
use crate::work::serve_all;
use core_ir::Core;
use sac_base::{Form, Memory};
use std::alloc::Global;

/// Makes instances of functions for the known shapes of calls' arguments, and one of main for the forms of the program's arguments, where it takes them.
///
/// Of a well-formed core the result is well formed and has the same outcome on all arguments of these forms, under all limits. Where main takes them, it
/// takes them alone in the result. At most 16 instances are added to a group. In the result each call in a function whose arguments have known shapes that
/// some instance fits has in its group an instance for just these shapes, or the group has at least 16 instances with known shapes for all parameters.
///
/// # Errors
///
/// `Memory`, also where 2^32 functions would be needed.
pub fn specialise(alloc: Global, core: Core, forms: &[Form]) -> Result<Core, Memory>
    ensures outcome { IsWellFormed (core_term core) → (args : List ArrayValue) (caps : Caps) → map form_of args ≡ forms.now
        → IfOk result (λ new. outcome (core_term core) args caps ≡ outcome (core_term new) args caps) }
    ensures well { IsWellFormed (core_term core) → IfOk result (λ new. IsWellFormed (core_term new)) }
    ensures added { IsWellFormed (core_term core) → IfOk result (λ new. FewAdded (core_term core) (core_term new)) }
    ensures served { IsWellFormed (core_term core) → IfOk result (λ new. CallsServed (core_term new)) }
    ensures main { IsWellFormed (core_term core) → IfOk result (λ new. MainTakes (core_term core) (core_term new) forms.now) }
{
    let mut plan = plan_of(alloc, &core)?;
    plan_main(alloc, &core, &mut plan, forms)?;
    serve_all(alloc, &core, &mut plan)?;
    build(alloc, &core, &plan)
}

/// Plans the instance of main for arguments of these forms, if it takes them and others.
fn plan_main(alloc: Global, core: &Core, plan: &mut Plan, forms: &[Form]) -> Result<(), Memory>
    ensures planned { OnOk result (MainPlanned (core_term core.now).main forms.now (entries plan.old.items.items) plan.old.main
        (entries plan.new.items.items) plan.new.main) }
    ensures groups { OnOk result (plan.new.groups ≡ plan.old.groups) }
{
    let types = item_types(alloc, &plan.items, core.main)?;
    let exact = exact_types(alloc, forms)?;
    if !all_below(&exact, &types) || all_below(&types, &exact) {
        return Ok(());
    }
    let number = add(
        plan,
        Item {
            source: core.main,
            types: exact,
        },
    )?;
    plan.main = number;
    Ok(())
}

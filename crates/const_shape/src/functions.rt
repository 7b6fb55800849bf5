//! All functions of a core.

ghost use Rattle.std.specs.Prelude.{◌≡◌, All, IfOk, map};
ghost use Rattle.core_ir.specs.Outcome.{SameOutside};
ghost use Rattle.core_ir.specs.View.{core_term, fun_term};
ghost use Rattle.core_ir.specs.WellFormed.{IsWellFormed};
ghost use Rattle.core_ir.specs.Terms.{FunTerm};
ghost use Rattle.core_facts.specs.Settled.{IsSettled};
ghost use Rattle.core_facts.specs.calls.Arrays.{SameOutcomeOnArrays};
ghost use Rattle.core_facts.specs.constants.Called.{called as called_in, params_facts};
ghost use Rattle.core_forms.specs.cleaning.Checks.{simplified_core};
ghost use Rattle.plain_facts.specs.Called.{shapes_of};
ghost use Rattle.const_shape.specs.Cleaned.{cleaned};
ghost use Rattle.const_shape.specs.Settling.{settled_by};

use crate::walk::settle_block;
use copy_propagation::propagate_copies;
use core_ir::{Core, CoreFun};
use fact_table::FactTable;
use plain_facts::{CalledShapes, learn_params};
use sac_base::Memory;
use std::alloc::Global;
use unused_bindings::remove_unused;

/// Binds each literal variable of a core by a constant: one whose value is known before the run, from the constants and the known shapes that it comes
/// from. Checks that cannot fail and copies go, their sources are used in their place, and bindings that are then not used and whose right side is known to
/// have a value go.
///
/// The new core is exactly that of the four passes one after another, as `core_forms::cleaning` defines them. The groups, main, and the types of all functions
/// stay. Of a well-formed core the result is well formed and has the same outcome on arrays, under all limits. In each function of the result, by what is
/// known in it of its parameters and of the results of calls, each literal variable is bound by a constant.
///
/// # Errors
///
/// `Memory`: there is none for a constant, for what is known of a variable, or for a list.
pub fn propagate(alloc: Global, core: Core) -> Result<Core, Memory>
    ensures term { IfOk result (λ new. core_term new ≡ cleaned (core_term core)) }
    ensures outcome { IsWellFormed (core_term core) → IfOk result (λ new. SameOutcomeOnArrays (core_term core) (core_term new)) }
    ensures outside { IfOk result (λ new. SameOutside (core_term core) (core_term new)) }
    ensures well { IsWellFormed (core_term core) → IfOk result (λ new. IsWellFormed (core_term new)) }
    ensures settled { IfOk result (λ new. All (λ (f : FunTerm). IsSettled (called_in (core_term new)) f.body (params_facts f)) (core_term new).functions) }
{
    clean(alloc, core)
}

// Settled at the end once more, so that no literal variable is left without a constant, whatever the two passes between leave.
fn clean(alloc: Global, core: Core) -> Result<Core, Memory>
    ensures { IfOk result (λ new. core_term new ≡ cleaned (core_term core)) }
{
    let settled = settle_functions(alloc, core)?;
    let forwarded = propagate_copies(alloc, settled)?;
    let swept = remove_unused(alloc, forwarded)?;
    settle_functions(alloc, swept)
}

fn settle_functions(alloc: Global, core: Core) -> Result<Core, Memory>
    ensures { IfOk result (λ new. core_term new ≡ simplified_core (core_term core)) }
{
    let called = CalledShapes::of_core(alloc, &core)?;
    let functions = settle_all(alloc, core.functions, &called)?;
    Ok(Core { functions, ..core })
}

fn settle_all(
    alloc: Global,
    functions: Vec<CoreFun>,
    called: &CalledShapes,
) -> Result<Vec<CoreFun>, Memory>
    ensures { IfOk result (λ new. map fun_term new.items ≡ map (settled_by (shapes_of called.now)) (map fun_term functions.items)) }
{
    let mut settled = Vec::new(alloc);
    for function in functions {
        settled.push(settle_function(alloc, function, called)?)?;
    }
    Ok(settled)
}

fn settle_function(
    alloc: Global,
    function: CoreFun,
    called: &CalledShapes,
) -> Result<CoreFun, Memory>
    ensures { IfOk result (λ new. fun_term new ≡ settled_by (shapes_of called.now) (fun_term function)) }
{
    let mut table = FactTable::new(alloc);
    learn_params(&function, &mut table)?;
    let body = settle_block(alloc, function.body, called, &mut table)?;
    Ok(CoreFun {
        body: body.block,
        ..function
    })
}

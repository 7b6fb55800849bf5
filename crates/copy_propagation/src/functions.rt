//! All functions of a core.

ghost use Rattle.std.specs.Prelude.{◌≡◌, IfOk, map};
ghost use Rattle.core_ir.specs.View.{core_term, fun_term};
ghost use Rattle.core_ir.specs.WellFormed.{IsWellFormed};
ghost use Rattle.core_facts.specs.calls.Arrays.{SameOutcomeOnArrays};
ghost use Rattle.core_forms.specs.cleaning.Copies.{forwarded_core};
ghost use Rattle.copy_propagation.specs.Forwarded.{forwarded_function};

use crate::sources::Sources;
use crate::walk::in_block;
use core_ir::{Core, CoreFun};
use sac_base::Memory;
use std::alloc::Global;

/// Uses the sources of copies in the place of the copies, in each function of a core. The copies stay as bindings.
///
/// The new core is exactly the one that `core_forms::cleaning` defines. Of a well-formed core it is well formed and has the same outcome on arrays, under all
/// limits.
///
/// # Errors
///
/// `Memory`: there is none for a note or a list.
pub fn propagate_copies(alloc: Global, core: Core) -> Result<Core, Memory>
    ensures term { IfOk result (λ new. core_term new ≡ forwarded_core (core_term core)) }
    ensures outcome { IsWellFormed (core_term core) → IfOk result (λ new. SameOutcomeOnArrays (core_term core) (core_term new)) }
    ensures well { IsWellFormed (core_term core) → IfOk result (λ new. IsWellFormed (core_term new)) }
{
    in_core(alloc, core)
}

fn in_core(alloc: Global, core: Core) -> Result<Core, Memory>
    ensures { IfOk result (λ new. core_term new ≡ forwarded_core (core_term core)) }
{
    let functions = in_functions(alloc, core.functions)?;
    Ok(Core { functions, ..core })
}

fn in_functions(alloc: Global, functions: Vec<CoreFun>) -> Result<Vec<CoreFun>, Memory>
    ensures { IfOk result (λ new. map fun_term new.items ≡ map forwarded_function (map fun_term functions.items)) }
{
    let mut forwarded = Vec::new(alloc);
    for function in functions {
        forwarded.push(in_function(alloc, function)?)?;
    }
    Ok(forwarded)
}

fn in_function(alloc: Global, function: CoreFun) -> Result<CoreFun, Memory>
    ensures { IfOk result (λ new. fun_term new ≡ forwarded_function (fun_term function)) }
{
    let mut sources = Sources::new(alloc);
    let body = in_block(alloc, function.body, &mut sources)?;
    Ok(CoreFun { body, ..function })
}

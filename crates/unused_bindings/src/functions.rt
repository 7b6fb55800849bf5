//! All functions of a core.

ghost use Rattle.std.specs.Prelude.{◌≡◌, IfOk, map};
ghost use Rattle.core_ir.specs.View.{core_term, fun_term};
ghost use Rattle.core_ir.specs.WellFormed.{IsWellFormed};
ghost use Rattle.core_facts.specs.calls.Arrays.{SameOutcomeOnArrays};
ghost use Rattle.core_forms.specs.cleaning.Unused.{swept_core};
ghost use Rattle.plain_facts.specs.Called.{shapes_of};
ghost use Rattle.unused_bindings.specs.Swept.{swept_function};

use crate::walk::in_block;
use core_ir::{Core, CoreFun};
use fact_table::FactTable;
use plain_facts::{CalledShapes, learn_params};
use sac_base::Memory;
use std::alloc::Global;

/// Takes out of each function of a core the bindings that are not used and whose right side is known to have a value: constants, copies, operators of one
/// operand, `Dim` and `ShapeOf`; operators of two operands whose known shapes fit, but `/` and `%` only by literals without a zero; literals of one known
/// shape; selections from a known shape at a literal index in range. What only such bindings use is not used either.
///
/// The new core is exactly the one that `core_forms::cleaning` defines. Of a well-formed core it is well formed and has the same outcome on arrays, under all
/// limits.
///
/// # Errors
///
/// `Memory`: there is none for the set of what is used, or for a list.
pub fn remove_unused(alloc: Global, core: Core) -> Result<Core, Memory>
    ensures term { IfOk result (λ new. core_term new ≡ swept_core (core_term core)) }
    ensures outcome { IsWellFormed (core_term core) → IfOk result (λ new. SameOutcomeOnArrays (core_term core) (core_term new)) }
    ensures well { IsWellFormed (core_term core) → IfOk result (λ new. IsWellFormed (core_term new)) }
{
    in_core(alloc, core)
}

fn in_core(alloc: Global, core: Core) -> Result<Core, Memory>
    ensures { IfOk result (λ new. core_term new ≡ swept_core (core_term core)) }
{
    let called = CalledShapes::of_core(alloc, &core)?;
    let functions = in_functions(alloc, core.functions, &called)?;
    Ok(Core { functions, ..core })
}

fn in_functions(
    alloc: Global,
    functions: Vec<CoreFun>,
    called: &CalledShapes,
) -> Result<Vec<CoreFun>, Memory>
    ensures { IfOk result (λ new. map fun_term new.items ≡ map (swept_function (shapes_of called.now)) (map fun_term functions.items)) }
{
    let mut swept = Vec::new(alloc);
    for function in functions {
        swept.push(in_function(alloc, function, called)?)?;
    }
    Ok(swept)
}

fn in_function(alloc: Global, function: CoreFun, called: &CalledShapes) -> Result<CoreFun, Memory>
    ensures { IfOk result (λ new. fun_term new ≡ swept_function (shapes_of called.now) (fun_term function)) }
{
    let mut table = FactTable::new(alloc);
    learn_params(&function, &mut table)?;
    let body = in_block(alloc, function.body, called, &mut table)?.block;
    Ok(CoreFun { body, ..function })
}

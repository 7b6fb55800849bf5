//! All functions of a core.

ghost use Rattle.std.specs.Prelude.{◌≡◌, IfOk, map};
ghost use Rattle.std.specs.List.{sum};
ghost use Rattle.core_ir.specs.Outcome.{SameOutside};
ghost use Rattle.core_ir.specs.View.{core_term, fun_term};
ghost use Rattle.core_ir.specs.WellFormed.{IsWellFormed};
ghost use Rattle.core_subst.specs.Names.{above_function};
ghost use Rattle.core_facts.specs.calls.Arrays.{SameOutcomeOnArrays};
ghost use Rattle.core_forms.specs.selections.Vectors.{vectored_core};
ghost use Rattle.plain_facts.specs.Called.{shapes_of};
ghost use Rattle.vector_selections.specs.Vectored.{vectored_function, vectors_in, vectors_in_core};

use crate::walk::in_block;
use core_ir::{Core, CoreFun};
use core_subst::fresh;
use fact_table::FactTable;
use plain_facts::{CalledShapes, learn_params};
use sac_base::Memory;
use std::alloc::Global;

/// Lets the selections of a core by scalars that are not literal go by vectors of one number, which are bound before them to new variables. Then the index
/// of a loop over one axis is a vector wherever an array is selected from by it.
///
/// The new core is exactly the one that `core_forms::selections` defines, and the number says how many vectors are new: where there is none, the core is as it
/// was. The groups, main, and the types of all functions stay. Of a well-formed core the result is well formed and has the same outcome on arrays, under
/// all limits.
///
/// # Errors
///
/// `Memory`: there is none for a binding or for what is known of a variable, or no number of 32 bits for a new variable, or none of 64 bits for the new
/// vectors.
pub fn select_by_vectors(alloc: Global, core: Core) -> Result<(Core, u64), Memory>
    ensures term { IfOk result (λ new. core_term new.0 ≡ vectored_core (core_term core)) }
    ensures count { IfOk result (λ new. new.1 ≡ vectors_in_core (core_term core)) }
    ensures unchanged { IfOk result (λ new. new.1 ≡ 0 → core_term new.0 ≡ core_term core) }
    ensures outcome { IsWellFormed (core_term core) → IfOk result (λ new. SameOutcomeOnArrays (core_term core) (core_term new.0)) }
    ensures outside { IfOk result (λ new. SameOutside (core_term core) (core_term new.0)) }
    ensures well { IsWellFormed (core_term core) → IfOk result (λ new. IsWellFormed (core_term new.0)) }
{
    in_core(alloc, core)
}

fn in_core(alloc: Global, core: Core) -> Result<(Core, u64), Memory>
    ensures term { IfOk result (λ new. core_term new.0 ≡ vectored_core (core_term core)) }
    ensures count { IfOk result (λ new. new.1 ≡ vectors_in_core (core_term core)) }
{
    let called = CalledShapes::of_core(alloc, &core)?;
    let (functions, count) = in_functions(alloc, core.functions, &called)?;
    let core = Core { functions, ..core };
    Ok((core, count))
}

/// The functions, and how many vectors are new in them.
fn in_functions(
    alloc: Global,
    functions: Vec<CoreFun>,
    called: &CalledShapes,
) -> Result<(Vec<CoreFun>, u64), Memory>
    ensures term { IfOk result (λ new. map fun_term new.0.items ≡ map (vectored_function (shapes_of called.now)) (map fun_term functions.items)) }
    ensures count { IfOk result (λ new. new.1 ≡ sum (map (vectors_in (shapes_of called.now)) (map fun_term functions.items))) }
{
    let mut vectored = Vec::new(alloc);
    let mut count = 0u64;
    for function in functions {
        let (function, more) = in_function(alloc, function, called)?;
        vectored.push(function)?;
        count = match count.checked_add(more) {
            Some(sum) => sum,
            None => return Err(Memory),
        };
    }
    Ok((vectored, count))
}

/// The function, and how many vectors are new in it.
fn in_function(
    alloc: Global,
    function: CoreFun,
    called: &CalledShapes,
) -> Result<(CoreFun, u64), Memory>
    ensures term { IfOk result (λ new. fun_term new.0 ≡ vectored_function (shapes_of called.now) (fun_term function)) }
    ensures count { IfOk result (λ new. new.1 ≡ vectors_in (shapes_of called.now) (fun_term function)) }
{
    let first = first_new(&function)?;
    let mut fresh = first;
    let mut table = FactTable::new(alloc);
    learn_params(&function, &mut table)?;
    let body = in_block(alloc, function.body, called, &mut table, &mut fresh)?.block;
    let function = CoreFun { body, ..function };
    Ok((function, u64::from(fresh.saturating_sub(first))))
}

/// The first number above those of a function's variables.
fn first_new(function: &CoreFun) -> Result<u32, Memory>
    ensures { IfOk result (λ number. number ≡ above_function (fun_term function.now)) }
{
    match fresh(function) {
        Some(new) => Ok(new.0),
        None => Err(Memory),
    }
}

//! New numbers for the variables that bodies bind.

ghost use Rattle.std.specs.Prelude.{◌≡◌, suc, All, IfOk, map};
ghost use Rattle.core_ir.specs.Outcome.{SameOutside};
ghost use Rattle.core_ir.specs.View.{core_term, fun_term};
ghost use Rattle.core_ir.specs.WellFormed.{IsWellFormed};
ghost use Rattle.core_subst.specs.Names.{above_all};
ghost use Rattle.core_facts.specs.calls.Arrays.{SameOutcomeOnArrays};
ghost use Rattle.dense_variables.specs.Dense.{dense_core, numbered_function, IsDense};

use core_ir::{Core, CoreFun, Var};
use parted_bodies::{Names, Progress, bound_in, copy_block};
use sac_base::{ArrayType, Memory};
use std::alloc::Global;

/// Gives the variables that the body of each function binds the numbers behind those of its parameters, one after another and in the order in which they
/// are bound. The parameters stay.
///
/// The groups, main, and the types of all functions stay. Of a well-formed core the result is well formed and has the same outcome on arrays, under all
/// limits.
///
/// # Errors
///
/// `Memory`: there is none for a body, or no number of 32 bits for a variable.
pub fn number_densely(alloc: Global, core: Core) -> Result<Core, Memory>
    ensures term { IfOk result (λ new. core_term new ≡ dense_core (core_term core)) }
    ensures dense { IsWellFormed (core_term core) → IfOk result (λ new. All IsDense (core_term new).functions) }
    ensures outcome { IsWellFormed (core_term core) → IfOk result (λ new. SameOutcomeOnArrays (core_term core) (core_term new)) }
    ensures outside { IfOk result (λ new. SameOutside (core_term core) (core_term new)) }
    ensures well { IsWellFormed (core_term core) → IfOk result (λ new. IsWellFormed (core_term new)) }
{
    in_core(alloc, core)
}

fn in_core(alloc: Global, core: Core) -> Result<Core, Memory>
    ensures { IfOk result (λ new. core_term new ≡ dense_core (core_term core)) }
{
    let functions = in_functions(alloc, core.functions)?;
    Ok(Core { functions, ..core })
}

fn in_functions(alloc: Global, functions: Vec<CoreFun>) -> Result<Vec<CoreFun>, Memory>
    ensures { IfOk result (λ new. map fun_term new.items ≡ map numbered_function (map fun_term functions.items)) }
{
    let mut dense = Vec::new(alloc);
    for function in functions {
        dense.push(in_function(alloc, function)?)?;
    }
    Ok(dense)
}

fn in_function(alloc: Global, function: CoreFun) -> Result<CoreFun, Memory>
    ensures { IfOk result (λ new. fun_term new ≡ numbered_function (fun_term function)) }
{
    let mut progress = Progress {
        next: above_params(&function.params),
        replaced: 0,
    };
    let bound = bound_in(alloc, &function.body)?;
    let mut names = Names::new(alloc);
    names.set_all(&bound, &mut progress)?;
    let body = copy_block(alloc, &function.body, &names)?;
    Ok(CoreFun { body, ..function })
}

/// The first number above those of the parameters.
fn above_params(params: &[(Var, ArrayType)]) -> u64
    ensures { result ≡ above_all (map (λ p. p.0) params.now) }
{
    let mut number = 0u64;
    for (var, _) in params {
        number = number.max(above_var(*var));
    }
    number
}

fn above_var(var: Var) -> u64
    ensures { result ≡ suc var.0 }
{
    u64::from(var.0) + 1
}

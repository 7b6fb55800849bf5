//! Rounds over a core, until one replaces nothing.

ghost use Rattle.std.specs.Prelude.{◌≡◌, ◌≤◌, ◌+◌, IfOk, map};
ghost use Rattle.core_ir.specs.Outcome.{SameOutside};
ghost use Rattle.core_ir.specs.View.{core_term, fun_term};
ghost use Rattle.core_ir.specs.WellFormed.{IsWellFormed};
ghost use Rattle.core_facts.specs.calls.Arrays.{SameOutcomeOnArrays};
ghost use Rattle.core_forms.specs.norm.Walks.{NormSteps, core_weight};
ghost use Rattle.core_subst.specs.Names.{above_function};
ghost use Rattle.plain_facts.specs.Called.{shapes_of};
ghost use Rattle.with_norm.specs.Normed.{AllNormal, AllNormed, FunctionNormed, Normalised, Round};

use core_ir::{Core, CoreFun};
use core_subst::fresh;
use fact_table::FactTable;
use norm_walk::{Given, norm_block};
use parted_bodies::Progress;
use plain_facts::{CalledShapes, learn_params};
use sac_base::Memory;
use std::alloc::Global;
use variable_bases::{BaseTable, Signatures};

/// Replaces with-loops of a core by parted loops, where bounds, frame and cells' shape are known before the run.
///
/// The number says how many were replaced. Where a with-loop holds others, those are replaced first. The groups, main, and the types of all functions
/// stay. Of a well-formed core the result is well formed and has the same outcome on arrays, and it came by as many normalising steps as the number
/// says, each of which makes it lighter.
///
/// # Errors
///
/// `Memory`: there is none for a loop or for what is known of a variable, a function would need more than 2^32 variables, or a with-loop could become a
/// parted loop after more than 1,048,576 variables were made for others in one round.
pub fn normalise(alloc: Global, core: Core) -> Result<(Core, u64), Memory>
    ensures outcome { IsWellFormed (core_term core) → IfOk result (λ new. SameOutcomeOnArrays (core_term core) (core_term new.0)) }
    ensures outside { IfOk result (λ new. SameOutside (core_term core) (core_term new.0)) }
    ensures well { IsWellFormed (core_term core) → IfOk result (λ new. IsWellFormed (core_term new.0)) }
    ensures lighter { IsWellFormed (core_term core) → IfOk result (λ new. (core_weight (core_term new.0) + new.1) ≤ core_weight (core_term core)) }
    ensures steps { IsWellFormed (core_term core) → IfOk result (λ new. NormSteps new.1 (core_term core) (core_term new.0)) }
    ensures normal { IsWellFormed (core_term core) → IfOk result (λ new. AllNormal (core_term new.0)) }
{
    rounds(alloc, core)
}

// A well-formed core gets lighter in each round but the last, so there are not more of them than its weight.
fn rounds(alloc: Global, core: Core) -> Result<(Core, u64), Memory>
    ensures kept { IfOk result (λ new. Normalised (core_term core) (core_term new.0) new.1) }
    ensures normal { IsWellFormed (core_term core) → IfOk result (λ new. AllNormal (core_term new.0)) }
{
    let mut core = core;
    let mut replaced = 0u64;
    for _round in 0..u64::MAX {
        let (next, count) = round(alloc, core)?;
        core = next;
        replaced = match replaced.checked_add(count) {
            Some(sum) => sum,
            None => return Err(Memory),
        };
        if count == 0 {
            return Ok((core, replaced));
        }
    }
    Err(Memory)
}

/// One walk over each function.
fn round(alloc: Global, core: Core) -> Result<(Core, u64), Memory>
    ensures { IfOk result (λ new. Round (core_term core) (core_term new.0) new.1) }
{
    let called = CalledShapes::of_core(alloc, &core)?;
    let signatures = Signatures::of_core(alloc, &core)?;
    let (functions, replaced) = norm_functions(alloc, core.functions, &called, &signatures)?;
    let core = Core { functions, ..core };
    Ok((core, replaced))
}

/// The functions, and how many with-loops were replaced.
fn norm_functions(
    alloc: Global,
    functions: Vec<CoreFun>,
    called: &CalledShapes,
    signatures: &Signatures,
) -> Result<(Vec<CoreFun>, u64), Memory>
    ensures { IfOk result (λ new. AllNormed (shapes_of called.now) signatures.now 0 (map fun_term functions.items) (map fun_term new.0.items) new.1) }
{
    let mut normal = Vec::new(alloc);
    let mut replaced = 0u64;
    let mut made = 0u64;
    for function in functions {
        let before = above(&function)?;
        let (function, count) = norm_function(alloc, function, called, signatures, replaced, made)?;
        made = made.saturating_add(above(&function)?.saturating_sub(before));
        normal.push(function)?;
        replaced = count;
    }
    Ok((normal, replaced))
}

/// The function, and how many with-loops were replaced so far. So many variables were made in the functions before it.
fn norm_function(
    alloc: Global,
    function: CoreFun,
    called: &CalledShapes,
    signatures: &Signatures,
    replaced: u64,
    made: u64,
) -> Result<(CoreFun, u64), Memory>
    ensures { IfOk result (λ new. FunctionNormed (shapes_of called.now) signatures.now replaced new.1 (fun_term function) (fun_term new.0)) }
{
    let bases = BaseTable::of_function(alloc, &function, signatures)?;
    let mut table = FactTable::new(alloc);
    learn_params(&function, &mut table)?;
    let first = above(&function)?;
    let given = Given {
        called,
        bases: &bases,
        first,
        made,
    };
    let mut progress = Progress {
        next: first,
        replaced,
    };
    let body = norm_block(alloc, function.body, &given, &mut table, &mut progress)?;
    let function = CoreFun {
        body: body.block,
        ..function
    };
    Ok((function, progress.replaced))
}

/// One more than the greatest number of a variable of a function.
fn above(function: &CoreFun) -> Result<u64, Memory>
    ensures { IfOk result (λ number. number ≡ above_function (fun_term function.now)) }
{
    match fresh(function) {
        Some(var) => Ok(u64::from(var.0)),
        None => Err(Memory),
    }
}

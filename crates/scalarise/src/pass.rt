//! Rounds over a core, until one merges nothing.

ghost use Rattle.std.specs.Prelude.{◌≡◌, ◌≤◌, ◌+◌, IfOk, map};
ghost use Rattle.core_ir.specs.Outcome.{SameOutside};
ghost use Rattle.core_ir.specs.View.{core_term, fun_term};
ghost use Rattle.core_ir.specs.WellFormed.{IsWellFormed};
ghost use Rattle.core_facts.specs.calls.Arrays.{SameOutcomeOnArrays};
ghost use Rattle.core_forms.specs.merge.Walks.{MergeSteps, core_parted};
ghost use Rattle.core_forms.specs.norm.Walks.{core_weight};
ghost use Rattle.core_subst.specs.Names.{above_function};
ghost use Rattle.plain_facts.specs.Called.{shapes_of};
ghost use Rattle.scalarise.specs.Scalarised.{AllMerged, FunctionMerged, NoneLeft, Round, Scalarised};

use core_ir::{Core, CoreFun};
use core_subst::fresh;
use fact_table::FactTable;
use merge_walk::merge_block;
use parted_bodies::Progress;
use plain_facts::{CalledShapes, learn_params};
use sac_base::Memory;
use std::alloc::Global;

/// Merges parted genarrays with the parted genarrays in their cells, the inner ones first, until no loop is left that can be merged.
///
/// The number says how many were merged. The groups, main, and the types of all functions stay, and a core of which none was merged is left as it was.
/// Of a well-formed core the result is well formed and has the same outcome on arrays; it came by as many merge steps as the number says, none of which
/// makes it heavier and each of which leaves it with fewer parted loops.
///
/// A loop can be merged where it is scalarisable (`IsScalarisable` of `core_loops`) and the frames of both loops, and each outer grid with the inner ones
/// behind it, have at most 8 axes together (`IsMergeable` of `merge_plans`). In a well-formed core the frames and all grids with a member do. So a
/// scalarisable loop is left only where a grid without members has more axes than its loop's frame (`axes_suffice`).
///
/// # Errors
///
/// `Memory`: there is none for a merged loop or for what is known of a variable, or a function would need more than 2^32 variables.
///
/// Source: Grelck, Scholz, Trojahner, With-loop scalarization: merging nested array operations, 2004.
pub fn scalarise_all(alloc: Global, core: Core) -> Result<(Core, u64), Memory>
    ensures outcome { IsWellFormed (core_term core) → IfOk result (λ new. SameOutcomeOnArrays (core_term core) (core_term new.0)) }
    ensures outside { IfOk result (λ new. SameOutside (core_term core) (core_term new.0)) }
    ensures well { IsWellFormed (core_term core) → IfOk result (λ new. IsWellFormed (core_term new.0)) }
    ensures weight { IsWellFormed (core_term core) → IfOk result (λ new. core_weight (core_term new.0) ≤ core_weight (core_term core)) }
    ensures parted { IsWellFormed (core_term core) → IfOk result (λ new. (core_parted (core_term new.0) + new.1) ≤ core_parted (core_term core)) }
    ensures steps { IsWellFormed (core_term core) → IfOk result (λ new. MergeSteps new.1 (core_term core) (core_term new.0)) }
    ensures same { IfOk result (λ new. new.1 ≡ 0 → core_term new.0 ≡ core_term core) }
    ensures none { IfOk result (λ new. NoneLeft (core_term new.0)) }
{
    rounds(alloc, core)
}

// A well-formed core has fewer parted loops after each round but the last, so there are not more rounds than those.
fn rounds(alloc: Global, core: Core) -> Result<(Core, u64), Memory>
    ensures kept { IfOk result (λ new. Scalarised (core_term core) (core_term new.0) new.1) }
    ensures none { IfOk result (λ new. NoneLeft (core_term new.0)) }
{
    let mut core = core;
    let mut merged = 0u64;
    for _round in 0..u64::MAX {
        let (next, count) = round(alloc, core)?;
        core = next;
        merged = match merged.checked_add(count) {
            Some(sum) => sum,
            None => return Err(Memory),
        };
        if count == 0 {
            return Ok((core, merged));
        }
    }
    Err(Memory)
}

/// One walk over each function.
fn round(alloc: Global, core: Core) -> Result<(Core, u64), Memory>
    ensures { IfOk result (λ new. Round (core_term core) (core_term new.0) new.1) }
{
    let called = CalledShapes::of_core(alloc, &core)?;
    let (functions, merged) = merge_functions(alloc, core.functions, &called)?;
    let core = Core { functions, ..core };
    Ok((core, merged))
}

/// The functions, and how many loops were merged.
fn merge_functions(
    alloc: Global,
    functions: Vec<CoreFun>,
    called: &CalledShapes,
) -> Result<(Vec<CoreFun>, u64), Memory>
    ensures { IfOk result (λ new. AllMerged (shapes_of called.now) 0 (map fun_term functions.items) (map fun_term new.0.items) new.1) }
{
    let mut walked = Vec::new(alloc);
    let mut merged = 0u64;
    for function in functions {
        let (function, count) = merge_function(alloc, function, called, merged)?;
        walked.push(function)?;
        merged = count;
    }
    Ok((walked, merged))
}

/// The function, and how many loops were merged so far.
fn merge_function(
    alloc: Global,
    function: CoreFun,
    called: &CalledShapes,
    merged: u64,
) -> Result<(CoreFun, u64), Memory>
    ensures { IfOk result (λ new. FunctionMerged (shapes_of called.now) merged new.1 (fun_term function) (fun_term new.0)) }
{
    let mut table = FactTable::new(alloc);
    learn_params(&function, &mut table)?;
    let first = above(&function)?;
    let mut progress = Progress {
        next: first,
        replaced: merged,
    };
    let body = merge_block(alloc, function.body, called, &mut table, &mut progress)?;
    let function = CoreFun {
        body: body.block,
        ..function
    };
    Ok((function, progress.replaced))
}

/// One more than the greatest number of a variable of a function.
fn above(function: &CoreFun) -> Result<u64, Memory>
    ensures { IfOk result (λ number. number ≡ above_function (fun_term function.now)) }
{
    match fresh(function) {
        Some(var) => Ok(u64::from(var.0)),
        None => Err(Memory),
    }
}

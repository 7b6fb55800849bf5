//! Rounds over a core, until one folds nothing.

ghost use Rattle.std.specs.Prelude.{◌≡◌, ◌≤◌, ◌+◌, [], IfOk, length, map};
ghost use Rattle.core_ir.specs.Outcome.{SameOutside};
ghost use Rattle.core_ir.specs.View.{core_term, fun_term};
ghost use Rattle.core_ir.specs.WellFormed.{IsWellFormed};
ghost use Rattle.core_facts.specs.calls.Arrays.{SameOutcomeOnArrays};
ghost use Rattle.core_forms.specs.norm.Walks.{core_weight};
ghost use Rattle.core_forms.specs.fold.Walks.{FoldSteps, parted_count};
ghost use Rattle.core_subst.specs.Names.{above_function};
ghost use Rattle.plain_facts.specs.Called.{shapes_of};
ghost use Rattle.wl_folding.specs.Folded.{AllWalked, CoreFolded, FunctionWalked, HasNoPairs, Round, entries_of};

use core_ir::{Core, CoreFun};
use core_subst::fresh;
use fact_table::FactTable;
use fold_walk::{Fold, Folding, Given, fold_block};
use parted_bodies::Progress;
use plain_facts::{CalledShapes, learn_params};
use sac_base::Memory;
use std::alloc::Global;

/// The most variables that are made in one round.
const MOST_MADE: u64 = 4_194_304;

/// The pairs that were folded, in order.
#[derive(Drop)]
pub struct FoldLog {
    pub folds: Vec<Fold>,
}

/// Folds pairs of parted loops of a core, until none is left that can be folded.
///
/// Where the body of a loop holds pairs, those are folded first. The groups, main, and the types of all functions stay. Of a well-formed core the result
/// is well formed, has the same outcome on arrays and is no heavier, has one parted loop less for each entry of the log, and came by a fold step for each
/// entry, in order, on the pair that the entry names.
///
/// # Errors
///
/// `Memory`: there is none for a loop, for what is known of a variable or for an entry; there are more than 2^32 functions, one would need more than 2^32
/// variables, or more than 4,194,304 variables were made in one round.
pub fn fold_all(alloc: Global, core: Core) -> Result<(Core, FoldLog), Memory>
    ensures outcome { IsWellFormed (core_term core) → IfOk result (λ new. SameOutcomeOnArrays (core_term core) (core_term new.0)) }
    ensures outside { IfOk result (λ new. SameOutside (core_term core) (core_term new.0)) }
    ensures well { IsWellFormed (core_term core) → IfOk result (λ new. IsWellFormed (core_term new.0)) }
    ensures weight { IsWellFormed (core_term core) → IfOk result (λ new. core_weight (core_term new.0) ≤ core_weight (core_term core)) }
    ensures parted { IsWellFormed (core_term core) → IfOk result (λ new.
        (parted_count (core_term new.0) + length new.1.folds.items) ≡ parted_count (core_term core)) }
    ensures steps { IsWellFormed (core_term core) → IfOk result (λ new.
        FoldSteps (entries_of new.1.folds.items) (core_term core) (core_term new.0)) }
    ensures unchanged { IfOk result (λ new. new.1.folds.items ≡ [] → core_term new.0 ≡ core_term core) }
    ensures none { IfOk result (λ new. HasNoPairs (core_term new.0)) }
{
    let (core, folds) = rounds(alloc, core)?;
    Ok((core, FoldLog { folds }))
}

// A well-formed core has fewer parted loops after each round but the last, so there are not more rounds than it has parted loops, and one.
fn rounds(alloc: Global, core: Core) -> Result<(Core, Vec<Fold>), Memory>
    ensures folded { IfOk result (λ new. CoreFolded (core_term core) (core_term new.0) new.1.items) }
    ensures none { IfOk result (λ new. HasNoPairs (core_term new.0)) }
{
    let mut core = core;
    let mut folds = Vec::new(alloc);
    for _round in 0..u64::MAX {
        let (next, mut found) = round(alloc, core)?;
        core = next;
        let ended = found.is_empty();
        folds.append(&mut found)?;
        if ended {
            return Ok((core, folds));
        }
    }
    Err(Memory)
}

/// One walk over each function.
fn round(alloc: Global, core: Core) -> Result<(Core, Vec<Fold>), Memory>
    ensures { IfOk result (λ new. Round (core_term core) (core_term new.0) new.1.items) }
{
    let called = CalledShapes::of_core(alloc, &core)?;
    let (functions, folds) = fold_functions(alloc, core.functions, &called)?;
    let core = Core { functions, ..core };
    Ok((core, folds))
}

/// The functions, and the pairs that were folded.
fn fold_functions(
    alloc: Global,
    functions: Vec<CoreFun>,
    called: &CalledShapes,
) -> Result<(Vec<CoreFun>, Vec<Fold>), Memory>
    ensures { IfOk result (λ new. AllWalked (shapes_of called.now) 0 [] (map fun_term functions.items) (map fun_term new.0.items) new.1.items) }
{
    let mut walked = Vec::new(alloc);
    let mut folds = Vec::new(alloc);
    let mut made = 0u64;
    let mut place = 0u32;
    for function in functions {
        let before = above(&function)?;
        let (function, longer) = fold_function(alloc, function, called, place, folds, made)?;
        made = made.saturating_add(above(&function)?.saturating_sub(before));
        walked.push(function)?;
        folds = longer;
        place = match place.checked_add(1) {
            Some(next) => next,
            None => return Err(Memory),
        };
    }
    Ok((walked, folds))
}

/// The function at a place, and the pairs that were folded so far. So many variables were made in the functions before it.
fn fold_function(
    alloc: Global,
    function: CoreFun,
    called: &CalledShapes,
    place: u32,
    folds: Vec<Fold>,
    made: u64,
) -> Result<(CoreFun, Vec<Fold>), Memory>
    ensures { IfOk result (λ new. FunctionWalked (shapes_of called.now) place folds.items new.1.items (fun_term function) (fun_term new.0)) }
{
    let mut table = FactTable::new(alloc);
    learn_params(&function, &mut table)?;
    let first = above(&function)?;
    let given = Given {
        alloc,
        called,
        function: place,
        most: first.saturating_add(MOST_MADE.saturating_sub(made)),
    };
    let mut folding = Folding {
        progress: Progress {
            next: first,
            replaced: 0,
        },
        folds,
    };
    let body = fold_block(function.body, &given, &mut table, &mut folding)?;
    let function = CoreFun { body, ..function };
    Ok((function, folding.folds))
}

/// One more than the greatest number of a variable of a function.
fn above(function: &CoreFun) -> Result<u64, Memory>
    ensures { IfOk result (λ number. number ≡ above_function (fun_term function.now)) }
{
    match fresh(function) {
        Some(var) => Ok(u64::from(var.0)),
        None => Err(Memory),
    }
}

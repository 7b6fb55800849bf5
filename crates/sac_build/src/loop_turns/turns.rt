//! Turns over a core, until one folds and merges nothing.

ghost use Rattle.std.specs.Prelude.{◌≡◌, ◌+◌, IfOk};
ghost use Rattle.core_ir.specs.Outcome.{SameOutside};
ghost use Rattle.core_ir.specs.View.{core_term};
ghost use Rattle.core_ir.specs.WellFormed.{IsWellFormed};
ghost use Rattle.core_facts.specs.calls.Arrays.{SameOutcomeOnArrays};
ghost use Rattle.sac_build.specs.loop_turns.Steps.{AreSettled, CameByTurns, TurnMade, Turned};

use core_ir::Core;
use dense_variables::number_densely;
use sac_base::Memory;
use scalarise::scalarise_all;
use std::alloc::Global;
use vector_selections::select_by_vectors;
use with_norm::normalise;
use wl_folding::fold_all;

/// A core, and how many parted loops were folded into others and merged with the ones in their cells on the way to it.
#[derive(Drop)]
pub struct Optimised {
    pub core: Core,
    pub folded: u64,
    pub scalarised: u64,
}

/// Makes parted loops of with-loops, folds pairs of those, and merges loops with the ones in their cells, until nothing is left to do.
///
/// With-loops become parted loops first, and selections by scalars go by vectors: only of the components of a part's index is it known that they are
/// scalars. Then, in each turn, variables are numbered one after another, with-loops become parted loops, pairs are folded, and loops are merged; the last
/// turn folds and merges nothing.
///
/// The groups, main, and the types of all functions stay. Of a well-formed core the result is well formed and has the same outcome on arrays. It came by
/// turns from a core with this outcome, in which there were as many fold steps and merge steps as the numbers say. In it no with-loop is left that can
/// become a parted loop, in functions in which no right side always faults; no pair that can be folded, as `wl_folding` says; and no loop that can be merged
/// with the ones in its cells, as `scalarise` says.
///
/// # Errors
///
/// `Memory`: one of the passes finds none, or 2^64 pairs or loops were folded or merged.
pub fn optimise_loops(alloc: Global, core: Core) -> Result<Optimised, Memory>
    ensures outcome { IsWellFormed (core_term core) → IfOk result (λ new. SameOutcomeOnArrays (core_term core) (core_term new.core)) }
    ensures outside { IfOk result (λ new. SameOutside (core_term core) (core_term new.core)) }
    ensures well { IsWellFormed (core_term core) → IfOk result (λ new. IsWellFormed (core_term new.core)) }
    ensures turns { IsWellFormed (core_term core) → IfOk result (λ new. CameByTurns (core_term core) (core_term new.core) new.folded new.scalarised) }
    ensures settled { IsWellFormed (core_term core) → IfOk result (λ new. AreSettled (core_term new.core)) }
{
    let vectored = by_vectors(alloc, core)?;
    join_loops(alloc, vectored)
}

fn by_vectors(alloc: Global, core: Core) -> Result<Core, Memory>
    ensures outcome { IsWellFormed (core_term core) → IfOk result (λ new. SameOutcomeOnArrays (core_term core) (core_term new)) }
    ensures outside { IfOk result (λ new. SameOutside (core_term core) (core_term new)) }
    ensures well { IsWellFormed (core_term core) → IfOk result (λ new. IsWellFormed (core_term new)) }
{
    let (parted, _) = normalise(alloc, core)?;
    let (vectored, _) = select_by_vectors(alloc, parted)?;
    Ok(vectored)
}

// Each turn but the last has fewer with-loops than the one before, or as many and fewer parted loops.
fn join_loops(alloc: Global, core: Core) -> Result<Optimised, Memory>
    ensures turned { IfOk result (λ new. Turned (core_term core) (core_term new.core) new.folded new.scalarised) }
    ensures settled { IsWellFormed (core_term core) → IfOk result (λ new. AreSettled (core_term new.core)) }
{
    let mut core = core;
    let mut folded = 0u64;
    let mut scalarised = 0u64;
    for _turn in 0..u64::MAX {
        let next = one_turn(alloc, core)?;
        core = next.core;
        folded = sum(folded, next.folded)?;
        scalarised = sum(scalarised, next.scalarised)?;
        if next.folded == 0 && next.scalarised == 0 {
            return Ok(Optimised {
                core,
                folded,
                scalarised,
            });
        }
    }
    Err(Memory)
}

fn one_turn(alloc: Global, core: Core) -> Result<Optimised, Memory>
    ensures { IfOk result (λ new. TurnMade (core_term core) (core_term new.core) new.folded new.scalarised) }
{
    let dense = number_densely(alloc, core)?;
    let (normal, _) = normalise(alloc, dense)?;
    let (single, log) = fold_all(alloc, normal)?;
    let (merged, scalarised) = scalarise_all(alloc, single)?;
    Ok(Optimised {
        core: merged,
        folded: log.folds.len() as u64,
        scalarised,
    })
}

fn sum(a: u64, b: u64) -> Result<u64, Memory>
    ensures { IfOk result (λ n. n ≡ a + b) }
{
    match a.checked_add(b) {
        Some(sum) => Ok(sum),
        None => Err(Memory),
    }
}

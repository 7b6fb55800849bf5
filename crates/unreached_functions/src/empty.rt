//! Bodies that are not reached.

ghost use Rattle.std.specs.Prelude.{◌≡◌, ◌<◌, ◌⊎◌, IfOk, IfSome, OnOk, length};
ghost use Rattle.sac_base.specs.declared.faults.FaultKind.TheVariants.{F10};
ghost use Rattle.core_ir.specs.Outcome.{SameOutcome, SameOutside};
ghost use Rattle.core_ir.specs.Terms.{Gives, Bind, Plain, Always};
ghost use Rattle.core_ir.specs.View.{core_term, block_term, let_term};
ghost use Rattle.core_ir.specs.WellFormed.{IsWellFormed};
ghost use Rattle.unreached_functions.specs.Closed.{IsClosed};
ghost use Rattle.unreached_functions.specs.Emptied.{FunctionEmptied, numbered as numbered_from};

use crate::marking::{Marks, is_closed, is_marked, marks_of};
use core_ir::{Block, Core, Let, Right, Var};
use core_subst::fresh;
use sac_base::{FaultKind, Memory, Site};
use std::alloc::Global;

/// Takes the bodies of functions that `main` does not reach over calls: a body that calls nothing stands in their place. Their places, their names and
/// their types stay, as the groups and main do.
///
/// The result has the same outcome on all arguments and under all limits, and is well formed where the core is.
pub fn empty_unreached(alloc: Global, core: Core) -> Result<Core, Memory>
    ensures outcome { IfOk result (λ c. SameOutcome (core_term core) (core_term c)) }
    ensures outside { IfOk result (λ c. SameOutside (core_term core) (core_term c)) }
    ensures well { IsWellFormed (core_term core) → IfOk result (λ c. IsWellFormed (core_term c)) }
{
    let marks = marks_of(alloc, &core)?;
    let mut core = core;
    let closed = is_closed(alloc, &core, &marks)?;
    if closed {
        empty_unmarked(alloc, &mut core, &marks)?;
    }
    Ok(core)
}

/// Takes the bodies of functions that are not marked.
fn empty_unmarked(alloc: Global, core: &mut Core, marks: &Marks) -> Result<(), Memory>
    ensures outcome { IsClosed (core_term core.old) marks.now.groups.items marks.now.functions.items
        → OnOk result (SameOutcome (core_term core.old) (core_term core.new)) }
    ensures outside { OnOk result (SameOutside (core_term core.old) (core_term core.new)) }
    ensures well { IsWellFormed (core_term core.old) → OnOk result (IsWellFormed (core_term core.new)) }
{
    for place in 0..core.functions.len() {
        if !is_marked(&marks.functions, place) {
            empty_function(alloc, core, place)?;
        }
    }
    Ok(())
}

/// Takes the body of the function at a place, where there are numbers for its results.
fn empty_function(alloc: Global, core: &mut Core, place: usize) -> Result<(), Memory>
    requires { place < length core.old.functions.items }
    ensures emptied { OnOk result ((core_term core.old ≡ core_term core.new) ⊎ FunctionEmptied (core_term core.old) (core_term core.new) place) }
    ensures count { OnOk result (length core.new.functions.items ≡ length core.old.functions.items) }
{
    let Some(first) = fresh(&core.functions[place]) else {
        return Ok(());
    };
    let count = core.functions[place].results.len();
    let Some(targets) = numbered(alloc, first, count)? else {
        return Ok(());
    };
    let body = empty_body(alloc, targets, core.functions[place].site)?;
    core.functions[place].body = body;
    Ok(())
}

/// So many variables, from one on. There are none where a number would be too great.
fn numbered(alloc: Global, first: Var, count: usize) -> Result<Option<Vec<Var>>, Memory>
    ensures { IfOk result (λ o. IfSome o (λ v. v.items ≡ numbered_from first.0 count)) }
{
    let mut vars = Vec::new(alloc);
    let mut next = u64::from(first.0);
    for _k in 0..count {
        let Ok(number) = u32::try_from(next) else {
            return Ok(None);
        };
        vars.push(Var(number))?;
        next += 1;
    }
    Ok(Some(vars))
}

/// A body that calls nothing, and faults where it is reached.
fn empty_body(alloc: Global, targets: Vec<Var>, site: Site) -> Result<Block, Memory>
    ensures { IfOk result (λ b. block_term b ≡ Bind targets.items site (Plain (Always F10)) (Gives targets.items)) }
{
    let results = Vec::from_slice(alloc, &targets)?;
    let binding = fault(targets, site);
    let mut lets = Vec::new(alloc);
    lets.push(binding)?;
    Ok(Block { lets, results })
}

/// A binding that always faults.
fn fault(targets: Vec<Var>, site: Site) -> Let
    ensures { let_term result ≡ record { targets = targets.items; site = site; right = Plain (Always F10) } }
{
    Let {
        targets,
        site,
        right: Right::Always(FaultKind::F10),
    }
}

//! Places that need one reference more.

ghost use Rattle.std.specs.Prelude.{◌≡◌, List, IfOk};
ghost use Rattle.core_ir.specs.Binders.{is_in};
ghost use Rattle.core_ir.specs.declared.tree.Var.{Var as Variable};
ghost use Rattle.counted_laws.specs.placing.Placing.{without, surplus};
ghost use Rattle.ref_rules.specs.Counts.{count_of, AreCounts};

use core_ir::Var;
use sac_base::Memory;
use std::alloc::Global;
use std::collections::HashMap;

/// For the number of each variable how often it stands in a list.
type Counts = HashMap<u32, usize>;

/// The places that need one reference more, where each of `own` has one for its first place.
///
/// # Errors
///
/// `Memory`: there is none for the places, or for the table of `own`.
pub fn needing_more(alloc: Global, places: &[Var], own: &[Var]) -> Result<Vec<Var>, Memory>
    ensures { IfOk result (λ more. more.items ≡ surplus places.now own.now) }
{
    let mut free = counts_of(alloc, own)?;
    let mut more = Vec::new(alloc);
    for x in places {
        if !take_one(&mut free, *x) {
            more.push(*x)?;
        }
    }
    Ok(more)
}

// How often each variable stands in the list.
fn counts_of(alloc: Global, xs: &[Var]) -> Result<Counts, Memory>
    ensures { IfOk result (λ counts. AreCounts counts xs.now) }
{
    let mut counts = HashMap::new(alloc);
    for x in xs {
        let count = count_at(&counts, *x);
        counts.insert(x.0, count + 1)?;
    }
    Ok(counts)
}

fn count_at(counts: &Counts, x: Var) -> usize
    ensures { result ≡ count_of counts.now x }
{
    match counts.get(&x.0) {
        Some(count) => *count,
        None => 0,
    }
}

// Takes the first place of the variable out of the list that is counted, and says whether there was one.
fn take_one(counts: &mut Counts, x: Var) -> bool
    ensures was_there { (xs : List Variable) → AreCounts counts.old xs → result ≡ is_in x xs }
    ensures rest { (xs : List Variable) → AreCounts counts.old xs → AreCounts counts.new (without x xs) }
{
    match counts.get_mut(&x.0) {
        Some(count) => {
            let had = *count;
            *count = had.saturating_sub(1);
            had > 0
        }
        None => false,
    }
}

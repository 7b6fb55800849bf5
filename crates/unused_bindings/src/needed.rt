//! The bindings of a block that are needed, from the end.

ghost use Rattle.std.specs.Prelude.{◌≡◌, IfOk, map};
ghost use Rattle.core_ir.specs.Terms.{Gives};
ghost use Rattle.core_ir.specs.View.{block_term, let_term};
ghost use Rattle.unused_bindings.specs.Passed.{passed_term};
ghost use Rattle.unused_bindings.specs.Swept.{IsStep, needed_before};
ghost use Rattle.removal_rules.specs.Uses.{used_of};

use crate::swept::{SweptBlock, SweptLet};
use core_ir::{Block, Let, Var};
use fact_table::Known;
use removal_rules::{is_needless, set_of, united};
use sac_base::Memory;
use std::alloc::Global;
use std::collections::BTreeSet;

/// The block of the bindings that may not go or whose variable is used behind them.
pub fn needed_block(
    alloc: Global,
    passed: Vec<SweptLet>,
    results: Vec<Var>,
    known: Vec<Known>,
) -> Result<SweptBlock, Memory>
    ensures block { IfOk result (λ new. block_term new.block ≡ needed_before (map passed_term passed.items) (Gives results.items)) }
    ensures known { IfOk result (λ new. new.results ≡ known) }
{
    let mut rest = passed;
    let mut used = set_of(alloc, &results)?;
    let mut kept = Vec::new(alloc);
    while let Some(last) = rest.pop() {
        used = add_needed(last, used, &mut kept)?;
    }
    kept.reverse();
    Ok(SweptBlock {
        block: Block {
            lets: kept,
            results,
        },
        used,
        results: known,
    })
}

/// Puts a binding behind those that are needed, the latest in the block first, unless it may go and its variable is not used. Gives what is used with it.
fn add_needed(
    passed: SweptLet,
    used: BTreeSet<u32>,
    needed: &mut Vec<Let>,
) -> Result<BTreeSet<u32>, Memory>
    ensures { IfOk result (λ now. IsStep (passed_term passed) (map let_term needed.old.items) (map let_term needed.new.items) (used_of used) (used_of now)) }
{
    if is_needless(passed.may_go, &passed.binding.targets, &used) {
        return Ok(used);
    }
    needed.push(passed.binding)?;
    united(passed.used, used)
}

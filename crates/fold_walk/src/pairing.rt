//! A binding of a parted loop, and what bindings tell.

ghost use Rattle.std.specs.Prelude.{◌≡◌, ℕ, ◌<◌, ◌≤◌, ◌-◌, ◌+◌, ◌^◌, [], ◌∷◌, IfOk, IfSome, IfNone, OnOk, map, drop, length, reverse as reversed};
ghost use Rattle.core_ir.specs.View.{let_term, part_term};
ghost use Rattle.core_loops.specs.Steps.{facts_after};
ghost use Rattle.fact_table.specs.Table.{facts_of};
ghost use Rattle.plain_facts.specs.Called.{shapes_of};
ghost use Rattle.fold_walk.specs.Pairing.{BindsLoop, BindsNoLoop};

use crate::values::learn_binding;
use core_ir::{Let, PartedLoop, Right, Var};
use fact_table::FactTable;
use plain_facts::CalledShapes;
use sac_base::Memory;
use std::alloc::Global;

/// A parted loop of scalar cells, and the variable that it is bound to.
pub fn bound_loop(binding: &Let) -> Option<(Var, &PartedLoop)>
    ensures some { IfSome result (λ found. BindsLoop (let_term binding.now) found.0 found.1.now) }
    ensures none { IfNone result (BindsNoLoop (let_term binding.now)) }
{
    let [target] = binding.targets.as_slice() else {
        return None;
    };
    let Right::Parted(parted) = &binding.right else {
        return None;
    };
    if parted.cell.rank() == 0 {
        Some((*target, parted))
    } else {
        None
    }
}

/// The table learns what bindings tell, the last of which comes first.
pub fn learn_bindings(
    alloc: Global,
    bindings: &[Let],
    called: &CalledShapes,
    table: &mut FactTable,
) -> Result<(), Memory>
    ensures learned { OnOk result (facts_of table.new ≡ facts_after (shapes_of called.now) (reversed (map let_term bindings.now)) (facts_of table.old)) }
    ensures earlier { OnOk result (drop (length table.new - length table.old) table.new ≡ table.old) }
{
    let count = bindings.len();
    for turn in 0..count {
        learn_binding(alloc, &bindings[count - 1 - turn], called, table)?;
    }
    Ok(())
}

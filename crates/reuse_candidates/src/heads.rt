//! What generators read, and the indices of parts.

ghost use Rattle.std.specs.Prelude.{◌≡◌, ◌-◌, IfOk, OnOk, drop, length, option_to_list, pos, replicate};
ghost use Rattle.core_loops.specs.Indices;
ghost use Rattle.core_loops.specs.Indices.{note_others};
ghost use Rattle.core_uses.specs.Tests.{none_is, head_avoided};
ghost use Rattle.index_table.specs.Table.{index_of, indices_of};
ghost use Rattle.counted_code.specs.Pieces.{code_gen_term};

use core_ir::Var;
use core_uses::avoids_all;
use counted_code::CodeGen;
use index_table::{IndexTable, Relation};
use sac_base::Memory;
use std::alloc::Global;

/// The index itself, of so many components.
pub fn own_relation(alloc: Global, axes: usize) -> Result<Relation, Memory>
    ensures { IfOk result (λ relation. index_of relation ≡ Indices.Plus (replicate axes (pos 0))) }
{
    let mut numbers = Vec::new(alloc);
    numbers.resize(axes, 0)?;
    Ok(Relation::Plus(numbers))
}

/// No variable of these has a relation to the index.
pub fn forget_relations(indices: &mut IndexTable, vars: &[Var]) -> Result<(), Memory>
    ensures forgotten { OnOk result (indices_of indices.new ≡ note_others (indices_of indices.old) vars.now) }
    ensures behind { OnOk result (drop (length indices.new - length indices.old) indices.new ≡ indices.old) }
{
    for var in vars {
        indices.learn(*var, Relation::Other)?;
    }
    Ok(())
}

/// Whether the bounds, the step and the width of a generator are none of them this variable.
pub fn avoids_head(x: Var, generator: &CodeGen) -> bool
    ensures { result ≡ head_avoided x (code_gen_term generator.now).head }
{
    avoids_option(x, &generator.lower)
        && avoids_option(x, &generator.upper)
        && avoids_option(x, &generator.step)
        && avoids_option(x, &generator.width)
}

fn avoids_option(x: Var, other: &Option<Var>) -> bool
    ensures { result ≡ none_is x (option_to_list other.now) }
{
    match other {
        Some(y) => avoids_all(x, &[*y]),
        None => true,
    }
}

//! Generators whose bounds, steps and widths are literal.

ghost use Rattle.std.specs.Prelude.{◌≡◌, Some, None, Option, List, map, length};
ghost use Rattle.sac_base.specs.Arrays.{ArrayValue};
ghost use Rattle.sac_base.specs.WithLoops.{Bounds as BoundsValue};
ghost use Rattle.core_ir.specs.Meaning.{name_count as name_count_value};
ghost use Rattle.core_ir.specs.Terms.{gens_of};
ghost use Rattle.core_ir.specs.View.{gen_term};
ghost use Rattle.core_loops.specs.Loops.{AllLiteral, LiteralBounds, LiteralPart};
ghost use Rattle.fact_table.specs.Table.{facts_of};
ghost use Rattle.partable_loops.specs.Framings.{HasBounds};
ghost use Rattle.partable_loops.specs.Refused.{Decides};

use crate::refusal::Unplanned;
use array_with_loops::Bounds;
use core_ir::{CoreGen, Var};
use fact_table::FactTable;
use sac_base::{Array, copy_array};
use std::alloc::Global;

/// The bounds of the generators, if each part of them is literal or left out.
pub fn literal_bounds(
    alloc: Global,
    table: &FactTable,
    gens: &[CoreGen],
) -> Result<Vec<Bounds>, Unplanned>
    ensures { Decides result (λ bounds. AllLiteral (facts_of table.now) (gens_of (map gen_term gens.now)) bounds.items)
        (HasBounds (facts_of table.now) (gens_of (map gen_term gens.now))) }
{
    let mut bounds = Vec::new(alloc);
    for generator in gens {
        bounds.push(bounds_of(table, generator)?)?;
    }
    Ok(bounds)
}

fn bounds_of(table: &FactTable, generator: &CoreGen) -> Result<Bounds, Unplanned>
    ensures { Decides result (LiteralBounds (facts_of table.now) (gen_term generator.now).head)
        ((bounds : BoundsValue) × LiteralBounds (facts_of table.now) (gen_term generator.now).head bounds) }
{
    Ok(Bounds {
        lower: literal_part(table, generator.lower)?,
        lower_closed: generator.lower_closed,
        names: name_count(&generator.names),
        upper: literal_part(table, generator.upper)?,
        upper_closed: generator.upper_closed,
        step: literal_part(table, generator.step)?,
        width: literal_part(table, generator.width)?,
        site: generator.site,
    })
}

/// The value of a part, if it is literal; a part that is left out has none.
fn literal_part(table: &FactTable, part: Option<Var>) -> Result<Option<Array>, Unplanned>
    ensures { Decides result (LiteralPart (facts_of table.now) part) ((value : Option ArrayValue) × LiteralPart (facts_of table.now) part value) }
{
    match part {
        None => Ok(None),
        Some(x) => {
            let array = copy_array(literal(table, x)?)?;
            Ok(Some(array))
        }
    }
}

/// The value of a literal variable.
pub fn literal(table: &FactTable, x: Var) -> Result<&Array, Unplanned>
    ensures { Decides result (λ array. (facts_of table.now x).literal ≡ Some array.now) ((array : ArrayValue) × ((facts_of table.now x).literal ≡ Some array)) }
{
    match &table.fact(x).literal {
        Some(array) => Ok(array),
        None => Err(Unplanned::NotPartable),
    }
}

/// How many names an index has, where it is a list of them.
fn name_count(names: &[Var]) -> Option<usize>
    ensures { result ≡ name_count_value names.now }
{
    if names.is_empty() {
        None
    } else {
        Some(names.len())
    }
}

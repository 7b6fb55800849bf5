//! The bindings around an inner loop.

ghost use Rattle.std.specs.Prelude.{◌≡◌, ◌-◌, ◌&&◌, ◌∷◌, [], Some, IfOk, OnOk, replicate, pos, map, drop, length};
ghost use Rattle.core_ir.specs.View.{let_term};
ghost use Rattle.fact_table.specs.Table.{facts_of};
ghost use Rattle.plain_facts.specs.Called.{shapes_of};
ghost use Rattle.merge_plans.specs.scalarisable.Around.{are_total, none_uses};

use core_ir::{Let, Var};
use core_uses::avoids_right;
use fact_table::FactTable;
use index_table::{IndexTable, Relation};
use plain_facts::{CalledShapes, learn_index};
use sac_base::{Grid, Memory};
use std::alloc::Global;
use total_cells::pass_bindings;

/// Whether the bindings of a part's body before and after an inner loop do not use its variable, and never fault at any member of the part's grid.
///
/// The table has what is known of variables before the part, and is left as it was.
///
/// # Errors
///
/// `Memory`: there is none for what is known of a variable. The table may then hold notes of the body.
pub fn are_passed(
    alloc: Global,
    grid: &Grid,
    index: Var,
    before: &[Let],
    after: &[Let],
    called: &CalledShapes,
    facts: &mut FactTable,
) -> Result<bool, Memory>
    ensures total { IfOk result (λ total. total
        ≡ are_total (shapes_of called.now) grid.now (facts_of facts.old) index (map let_term before.now) (map let_term after.now)) }
    ensures facts { OnOk result (facts.new ≡ facts.old) }
{
    let mark = facts.mark();
    let mut indices = IndexTable::new(alloc);
    learn_index(alloc, facts, index, grid)?;
    indices.learn(index, Relation::Plus(zeros(alloc, grid.axes().len())?))?;
    let mut total = pass_bindings(alloc, before, called, grid, facts, &mut indices)?;
    if total {
        total = pass_bindings(alloc, after, called, grid, facts, &mut indices)?;
    }
    facts.undo(mark);
    Ok(total)
}

fn zeros(alloc: Global, count: usize) -> Result<Vec<i32>, Memory>
    ensures { IfOk result (λ numbers. numbers.items ≡ replicate count (pos 0)) }
{
    let mut numbers = Vec::new(alloc);
    numbers.resize(count, 0)?;
    Ok(numbers)
}

/// Whether no binding uses a variable.
pub fn none_use(x: Var, bindings: &[Let]) -> bool
    ensures { result ≡ none_uses x (map let_term bindings.now) }
{
    for binding in bindings {
        if !avoids_right(x, &binding.right) {
            return false;
        }
    }
    true
}

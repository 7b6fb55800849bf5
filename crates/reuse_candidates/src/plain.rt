//! Uses of an array in right sides without blocks, and what is known of values where it is used at the own index alone.

ghost use Rattle.std.specs.Prelude.{◌≡◌, ◌&&◌, ◌∷◌, [], IfOk, map, option_map};
ghost use Rattle.core_facts.specs.Facts.{common_facts as common, known_shape, parted_shape as shape_of_parted, shape_fact};
ghost use Rattle.core_uses.specs.Tests.{none_is};
ghost use Rattle.counted_code.specs.declared.tree.CodeParted.{out-CodeParted};
ghost use Rattle.counted_code.specs.Terms.{CallCode, Giving, core_of_right};
ghost use Rattle.counted_code.specs.View.{code_right_term};
ghost use Rattle.fact_table.specs.Table.{fact_of, facts_of};
ghost use Rattle.index_table.specs.Table.{indices_of};
ghost use Rattle.plain_facts.specs.Rights.{fact_of_right};
ghost use Rattle.reuse_candidates.specs.Cells.{block_tells, known_if, known_in_cell, right_tells, seen, told_if};
ghost use Rattle.reuse_candidates.specs.Plain.{is_own_plain, plain_core};

use crate::cells::{CellScope, Search};
use crate::copies::core_right;
use crate::rules::is_own;
use core_ir::Var;
use core_uses::avoids_all;
use counted_code::{CodeParted, CodeRight};
use fact_table::{FactTable, Known};
use index_table::IndexTable;
use plain_facts::{common_facts, known_of, parted_shape, plain_fact};
use sac_base::Memory;
use std::alloc::Global;

/// What is known of the results of a block whose steps are passed, where none of them is the array.
pub fn known_results(
    search: &Search<'_>,
    passed: bool,
    results: &[Var],
    scope: &CellScope,
) -> Result<Option<Vec<Known>>, Memory>
    ensures { IfOk result (λ found. seen found ≡ told_if passed (block_tells search.now (Giving results.now) (known_in_cell scope.now))) }
{
    if passed && avoids_all(search.array, results) {
        Ok(Some(known_of(search.alloc, &scope.facts, results)?))
    } else {
        Ok(None)
    }
}

/// What is known of the results of a conditional.
pub fn common_values(
    search: &Search<'_>,
    first: &[Known],
    second: Option<Vec<Known>>,
) -> Result<Option<Vec<Known>>, Memory>
    ensures { IfOk result (λ found. seen found ≡ option_map (common (map fact_of first.now)) (seen second)) }
{
    match second {
        Some(second) => Ok(Some(common_facts(search.alloc, first, &second)?)),
        None => Ok(None),
    }
}

/// What is known of the results of a call.
pub fn call_values(
    search: &Search<'_>,
    group: u32,
    args: &[Var],
    scope: &CellScope,
) -> Result<Option<Vec<Known>>, Memory>
    ensures { IfOk result (λ found. seen found ≡ right_tells search.now (CallCode group args.now) (known_in_cell scope.now)) }
{
    if !avoids_all(search.array, args) {
        return Ok(None);
    }
    Ok(Some(search.called.facts(search.alloc, group)?))
}

/// What is known of the value of a right side without blocks and calls.
pub fn plain_values(
    search: &Search<'_>,
    right: &CodeRight,
    scope: &CellScope,
) -> Result<Option<Vec<Known>>, Memory>
    ensures { IfOk result (λ found. seen found
        ≡ known_if (is_own_plain search.now.array (core_of_right (code_right_term right.now)) (indices_of scope.now.indices))
        (fact_of_right (plain_core (core_of_right (code_right_term right.now))) (facts_of scope.now.facts) ∷ [])) }
{
    if !own_plain(right, search.array, &scope.indices) {
        return Ok(None);
    }
    one(
        search.alloc,
        plain_known(search.alloc, right, &scope.facts)?,
    )
}

/// What is known of the value, wherever it is used. Of a right side with blocks or a call it is nothing.
///
/// # Errors
///
/// `Memory`: there is none for it.
pub fn plain_known(alloc: Global, right: &CodeRight, facts: &FactTable) -> Result<Known, Memory>
    ensures { IfOk result (λ known. fact_of known
        ≡ fact_of_right (plain_core (core_of_right (code_right_term right.now))) (facts_of facts.now)) }
{
    let core = core_right(alloc, right)?;
    plain_fact(alloc, &core, facts)
}

/// What is known of the array that a parted loop makes, where `own` holds.
pub fn parted_values(
    search: &Search<'_>,
    own: bool,
    parted: &CodeParted,
) -> Result<Option<Vec<Known>>, Memory>
    ensures { IfOk result (λ found. seen found ≡ known_if own
        (shape_fact (known_shape (shape_of_parted (out-CodeParted parted.now).frame (out-CodeParted parted.now).cell (out-CodeParted parted.now).op)) ∷ [])) }
{
    if !own {
        return Ok(None);
    }
    let shape = parted_shape(search.alloc, &parted.frame, &parted.cell, parted.op);
    one(search.alloc, Known::of_shape(shape))
}

// What is known of one value.
fn one(alloc: Global, known: Known) -> Result<Option<Vec<Known>>, Memory>
    ensures { IfOk result (λ all. seen all ≡ Some (fact_of known ∷ [])) }
{
    let mut all = Vec::new(alloc);
    all.push(known)?;
    Ok(Some(all))
}

/// Nothing is known of values that are there where `own` holds.
pub fn nothing_if(search: &Search<'_>, own: bool) -> Option<Vec<Known>>
    ensures { seen result ≡ known_if own [] }
{
    if own {
        Some(Vec::new(search.alloc))
    } else {
        None
    }
}

/// Nothing is known of the results of a loop: there are some where its test and its body are both own.
pub fn turn_values(search: &Search<'_>, tested: bool, turned: bool) -> Option<Vec<Known>>
    ensures { seen result ≡ known_if (tested && turned) [] }
{
    nothing_if(search, tested && turned)
}

/// Whether a right side without blocks and calls uses the array in a selection at the own index alone.
fn own_plain(right: &CodeRight, array: Var, indices: &IndexTable) -> bool
    ensures { result ≡ is_own_plain array (core_of_right (code_right_term right.now)) (indices_of indices.now) }
{
    match right {
        CodeRight::Select(x, y) => {
            avoids_all(array, &[*y]) && (array.0 != x.0 || is_own(indices.at(*y)))
        }
        CodeRight::If { .. }
        | CodeRight::Loop { .. }
        | CodeRight::Call { .. }
        | CodeRight::With(_)
        | CodeRight::Parted(_) => false,
        other => avoids_all(array, other.operands().as_slice()),
    }
}

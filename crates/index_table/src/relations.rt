//! What the value of a right side is beside the index.

ghost use Rattle.std.specs.Prelude.{◌≡◌, ◌-◌, Some, IfOk, OnOk, drop, length};
ghost use Rattle.core_ir.specs.Terms.{PlainTerm};
ghost use Rattle.core_ir.specs.View.{right_term};
ghost use Rattle.core_loops.specs.Indices.{plus_literal as changed_by, component_of as component, index_fact, learn_index, note_others, right_index};
ghost use Rattle.fact_table.specs.Table.{facts_of};
ghost use Rattle.index_table.specs.Table.{index_of, indices_of};
ghost use Rattle.index_table.specs.Numbers.{is_added, row_of};

use crate::numbers::{Change, all_changed, changed, literal_numbers, only_number};
use crate::relation::Relation;
use crate::table::IndexTable;
use core_ir::{Right, Var};
use fact_table::FactTable;
use sac_base::{Array, Memory, Op};
use std::alloc::Global;

/// What the value of a right side is beside the index of a part of so many axes. Of right sides with blocks and calls nothing is known.
///
/// # Errors
///
/// `Memory`: there is none for the numbers.
pub fn relation_of(
    alloc: Global,
    right: &Right,
    axes: usize,
    facts: &FactTable,
    indices: &IndexTable,
) -> Result<Relation, Memory>
    ensures { IfOk result (λ relation. index_of relation ≡ right_index axes (right_term right.now) (facts_of facts.now) (indices_of indices.now)) }
{
    match right {
        Right::Copy(x) => indices.at(*x).copy(),
        Right::Binary(op, x, y) => combined(alloc, *op, (*x, *y), facts, indices),
        Right::Literal(xs) => row(alloc, xs, axes, indices),
        Right::Select(x, y) => Ok(component_of(indices.at(*x), &facts.fact(*y).literal)),
        _ => Ok(Relation::Other),
    }
}

fn combined(
    alloc: Global,
    op: Op,
    operands: (Var, Var),
    facts: &FactTable,
    indices: &IndexTable,
) -> Result<Relation, Memory>
    ensures { IfOk result (λ relation. index_of relation
        ≡ index_fact 0 (PlainTerm.Binary op operands.0 operands.1) (facts_of facts.now) (indices_of indices.now)) }
{
    let (x, y) = operands;
    match op {
        Op::Add => {
            let literal = &facts.fact(y).literal;
            match plus_literal(alloc, Change::Added, indices.at(x), literal)? {
                Relation::Other => {
                    let literal = &facts.fact(x).literal;
                    plus_literal(alloc, Change::Added, indices.at(y), literal)
                }
                relation => Ok(relation),
            }
        }
        Op::Sub => plus_literal(alloc, Change::Taken, indices.at(x), &facts.fact(y).literal),
        _ => Ok(Relation::Other),
    }
}

/// What is left of a relation where a literal value is added or taken.
fn plus_literal(
    alloc: Global,
    change: Change,
    relation: &Relation,
    literal: &Option<Array>,
) -> Result<Relation, Memory>
    ensures { IfOk result (λ sum. index_of sum ≡ changed_by (is_added change) (index_of relation.now) literal.now) }
{
    let Some(array) = literal else {
        return Ok(Relation::Other);
    };
    match relation {
        Relation::Plus(numbers) => plus_numbers(alloc, change, numbers, array),
        Relation::Component { axis, plus } => Ok(component_plus(change, *axis, *plus, array)),
        Relation::Other => Ok(Relation::Other),
    }
}

fn plus_numbers(
    alloc: Global,
    change: Change,
    numbers: &[i32],
    array: &Array,
) -> Result<Relation, Memory>
    ensures { IfOk result (λ sum. index_of sum ≡ changed_by (is_added change) (Rattle.core_loops.specs.Indices.Plus numbers.now) (Some array.now)) }
{
    match literal_numbers(alloc, numbers.len(), array)? {
        Some(by) => Ok(Relation::Plus(all_changed(alloc, change, numbers, &by)?)),
        None => Ok(Relation::Other),
    }
}

fn component_plus(change: Change, axis: usize, plus: i32, array: &Array) -> Relation
    ensures { index_of result ≡ changed_by (is_added change) (Rattle.core_loops.specs.Indices.Component axis plus) (Some array.now) }
{
    match array.as_scalar() {
        Some(by) => Relation::Component {
            axis,
            plus: changed(change, plus, by),
        },
        None => Relation::Other,
    }
}

/// A component, selected at a literal index from the index plus numbers.
fn component_of(relation: &Relation, literal: &Option<Array>) -> Relation
    ensures { index_of result ≡ component (index_of relation.now) literal.now }
{
    let Relation::Plus(numbers) = relation else {
        return Relation::Other;
    };
    let Some(array) = literal else {
        return Relation::Other;
    };
    match only_number(array) {
        Some(axis) => component_at(numbers, axis as usize),
        None => Relation::Other,
    }
}

fn component_at(numbers: &[i32], axis: usize) -> Relation
    ensures { index_of result ≡ Rattle.core_loops.specs.Indices.component_at numbers.now (Some axis) }
{
    match numbers.get(axis) {
        Some(plus) => Relation::Component { axis, plus: *plus },
        None => Relation::Other,
    }
}

/// The index plus numbers, where a literal lists its components in order.
fn row(alloc: Global, xs: &[Var], axes: usize, indices: &IndexTable) -> Result<Relation, Memory>
    ensures { IfOk result (λ relation. index_of relation ≡ row_of axes xs.now (indices_of indices.now)) }
{
    let mut numbers = Vec::new(alloc);
    for k in 0..xs.len() {
        match indices.at(xs[k]) {
            Relation::Component { axis, plus } if *axis == k => numbers.push(*plus)?,
            _ => return Ok(Relation::Other),
        }
    }
    if numbers.len() == axes {
        Ok(Relation::Plus(numbers))
    } else {
        Ok(Relation::Other)
    }
}

/// Notes what the targets of a binding are beside the index: only of a binding of one variable something is known.
///
/// # Errors
///
/// `Memory`: there is none for a note. Those before it stand.
pub fn learn_relation(
    alloc: Global,
    targets: &[Var],
    right: &Right,
    axes: usize,
    facts: &FactTable,
    indices: &mut IndexTable,
) -> Result<(), Memory>
    ensures learned { OnOk result (indices_of indices.new ≡ learn_index axes (indices_of indices.old) targets.now (right_term right.now) (facts_of facts.now)) }
    ensures behind { OnOk result (drop (length indices.new - length indices.old) indices.new ≡ indices.old) }
{
    if targets.len() == 1 {
        let relation = relation_of(alloc, right, axes, facts, indices)?;
        indices.learn(targets[0], relation)
    } else {
        forget_all(indices, targets)
    }
}

fn forget_all(indices: &mut IndexTable, xs: &[Var]) -> Result<(), Memory>
    ensures forgotten { OnOk result (indices_of indices.new ≡ note_others (indices_of indices.old) xs.now) }
    ensures behind { OnOk result (drop (length indices.new - length indices.old) indices.new ≡ indices.old) }
{
    for x in xs {
        indices.learn(*x, Relation::Other)?;
    }
    Ok(())
}

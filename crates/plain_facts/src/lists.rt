//! What is known of several variables.

ghost use Rattle.std.specs.Prelude.{◌≡◌, ◌-◌, ◌∷◌, IfOk, List, OnOk, drop, length, map};
ghost use Rattle.core_ir.specs.declared.tree.Var.{Var as Variable};
ghost use Rattle.core_ir.specs.Outcome.{param_types, param_vars};
ghost use Rattle.core_ir.specs.View.{fun_term};
ghost use Rattle.core_facts.specs.Facts.{Facts, common_facts as common, note, note_all, shape_fact};
ghost use Rattle.core_facts.specs.constants.Called.{shape_of_type};
ghost use Rattle.sac_base.specs.declared.types.ArrayType.{ArrayType as TypeOf};
ghost use Rattle.fact_table.specs.Table.{fact_of, facts_of};

use core_ir::{CoreFun, Var};
use fact_table::shapes::{one_shape, type_shape};
use fact_table::{FactTable, Known};
use sac_base::Memory;
use std::alloc::Global;
use std::vec::IntoIter;

/// What is known of the results of a conditional, from what is known of those of its two blocks: the shapes that both have.
///
/// # Errors
///
/// `Memory`: there is none for the list.
pub fn common_facts(alloc: Global, a: &[Known], b: &[Known]) -> Result<Vec<Known>, Memory>
    ensures { IfOk result (λ facts. map fact_of facts.items ≡ common (map fact_of a.now) (map fact_of b.now)) }
{
    let mut facts = Vec::new(alloc);
    for k in 0..a.len().min(b.len()) {
        facts.push(Known::of_shape(one_shape(&a[k].shape, &b[k].shape)))?;
    }
    Ok(facts)
}

/// Notes what is known of variables, one after another. Of a variable that comes after all that is known, nothing is.
///
/// # Errors
///
/// `Memory`: there is none for a note. Those before it stand.
pub fn learn_all(facts: &mut FactTable, xs: &[Var], known: Vec<Known>) -> Result<(), Memory>
    ensures noted { OnOk result (facts_of facts.new ≡ note_all (facts_of facts.old) xs.now (map fact_of known.items)) }
    ensures behind { drop (length facts.new - length facts.old) facts.new ≡ facts.old }
{
    let mut rest = known.into_iter();
    for x in xs {
        facts.learn(*x, next_known(&mut rest))?;
    }
    Ok(())
}

// What is known of the next variable, and nothing behind the last.
fn next_known(rest: &mut IntoIter<Known>) -> Known
    ensures { (k : Facts) (x : Variable) (xs : List Variable) → note_all (note k x (fact_of result)) xs (map fact_of rest.new.rest.items)
        ≡ note_all k (x ∷ xs) (map fact_of rest.old.rest.items) }
{
    match rest.next() {
        Some(known) => known,
        None => Known::nothing(),
    }
}

/// Notes what is known of a function's parameters: the shapes that their types name.
///
/// # Errors
///
/// `Memory`: there is none for a note. Those before it stand.
pub fn learn_params(function: &CoreFun, facts: &mut FactTable) -> Result<(), Memory>
    ensures noted { OnOk result (facts_of facts.new ≡ note_all (facts_of facts.old) (param_vars (fun_term function.now))
        (map (λ (ty : TypeOf). shape_fact (shape_of_type ty)) (param_types (fun_term function.now)))) }
    ensures behind { drop (length facts.new - length facts.old) facts.new ≡ facts.old }
{
    for (x, ty) in &function.params {
        facts.learn(*x, Known::of_shape(type_shape(&ty.part, &None)))?;
    }
    Ok(())
}

//! Calls, and what is known where a function begins.

ghost use Rattle.std.specs.Prelude.{◌≡◌, ◌++◌, IfOk, OnOk, map};
ghost use Rattle.core_ir.specs.Outcome.{param_vars};
ghost use Rattle.core_ir.specs.View.{fun_term};
ghost use Rattle.core_facts.specs.Facts.{shape_fact};
ghost use Rattle.core_facts.specs.constants.Called.{shape_of_type};
ghost use Rattle.fact_table.specs.Table.{fact_of, facts_of};
ghost use Rattle.plain_facts.specs.Called.{shapes_of};
ghost use Rattle.known_calls.specs.Known.{known_in, typed_facts, shapes_known as shapes_in, call_known};
ghost use Rattle.known_calls.specs.Told.{told, AreShapes};

use crate::walk::find_in_block;
use core_ir::{CoreFun, Var};
use fact_table::shapes::type_shape;
use fact_table::{FactTable, Known};
use plain_facts::{CalledShapes, learn_all};
use sac_base::{ArrayType, Memory, Shape};
use std::alloc::Global;

/// A call whose arguments have known shapes.
#[derive(Drop)]
pub struct KnownCall {
    pub group: u32,
    pub shapes: Vec<Shape>,
}

/// The calls in a function whose arguments have known shapes, where the parameters have these types.
///
/// # Errors
///
/// `Memory`: there is none for what is known of a variable, or for a list.
pub fn known_calls(
    alloc: Global,
    function: &CoreFun,
    types: &[ArrayType],
    called: &CalledShapes,
) -> Result<Vec<KnownCall>, Memory>
    ensures { IfOk result (λ calls. told calls.items
        ≡ known_in (shapes_of called.now) (fun_term function.now).body (typed_facts (param_vars (fun_term function.now)) types.now)) }
{
    let mut table = typed_table(alloc, &function.params, types)?;
    let mut calls = Vec::new(alloc);
    let _results = find_in_block(alloc, &function.body, called, &mut table, &mut calls)?;
    Ok(calls)
}

/// What is known where a function begins whose parameters have these types.
fn typed_table(
    alloc: Global,
    params: &[(Var, ArrayType)],
    types: &[ArrayType],
) -> Result<FactTable, Memory>
    ensures { IfOk result (λ table. facts_of table ≡ typed_facts (map (λ p. p.0) params.now) types.now) }
{
    let vars = vars_of(alloc, params)?;
    let known = known_types(alloc, types)?;
    let mut table = FactTable::new(alloc);
    learn_all(&mut table, &vars, known)?;
    Ok(table)
}

fn vars_of(alloc: Global, params: &[(Var, ArrayType)]) -> Result<Vec<Var>, Memory>
    ensures { IfOk result (λ vars. vars.items ≡ map (λ p. p.0) params.now) }
{
    let mut vars = Vec::new(alloc);
    for (var, _) in params {
        vars.push(*var)?;
    }
    Ok(vars)
}

/// What types tell of their arrays.
fn known_types(alloc: Global, types: &[ArrayType]) -> Result<Vec<Known>, Memory>
    ensures { IfOk result (λ known. map fact_of known.items ≡ map (λ ty. shape_fact (shape_of_type ty)) types.now) }
{
    let mut known = Vec::new(alloc);
    for ty in types {
        known.push(Known::of_shape(type_shape(&ty.part, &None)))?;
    }
    Ok(known)
}

/// Notes a call, if the shapes of its arguments are known.
pub fn note_call(
    alloc: Global,
    group: u32,
    args: &[Var],
    table: &FactTable,
    calls: &mut Vec<KnownCall>,
) -> Result<(), Memory>
    ensures { OnOk result (told calls.new.items ≡ told calls.old.items ++ call_known group (shapes_in (facts_of table.now) args.now)) }
{
    if let Some(shapes) = shapes_known(alloc, args, table)? {
        calls.push(KnownCall { group, shapes })?;
    }
    Ok(())
}

/// The shapes of variables, if all of them are known.
fn shapes_known(
    alloc: Global,
    vars: &[Var],
    table: &FactTable,
) -> Result<Option<Vec<Shape>>, Memory>
    ensures { IfOk result (λ shapes. AreShapes (shapes_in (facts_of table.now) vars.now) shapes) }
{
    let mut shapes = Vec::new(alloc);
    for var in vars {
        match &table.fact(*var).shape {
            Some(shape) => shapes.push(shape.copy())?,
            None => return Ok(None),
        }
    }
    Ok(Some(shapes))
}

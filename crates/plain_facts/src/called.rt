//! Known shapes of the results of calls.

ghost use Rattle.std.specs.Prelude.{◌≡◌, IfOk, map, slice_get};
ghost use Rattle.core_ir.specs.View.{core_term, fun_term};
ghost use Rattle.core_facts.specs.Facts.{shape_fact};
ghost use Rattle.core_facts.specs.constants.Called.{called, common_shapes, result_shapes, shape_of_type, shapes_at};
ghost use Rattle.fact_table.specs.Table.{fact_of};
ghost use Rattle.plain_facts.specs.Called.{shapes_of};

use core_ir::{Core, CoreFun};
use fact_table::Known;
use fact_table::shapes::{one_shape, type_shape};
use sac_base::{ArrayType, Memory, Shape};
use std::alloc::Global;
use std::marker::Model;

/// The known shapes of the results of each group, in all instances.
#[derive(Drop)]
pub struct CalledShapes {
    groups: Vec<Vec<Option<Shape>>>,
}

impl Model for CalledShapes {
    ghost use Rattle.std.specs.Prelude.{List, Option, ℕ, map, ⊤};

    ghost Value = { List (List (Option (List ℕ))) };

    ghost view = { λ shapes. map (λ group. group.items) shapes.groups.items };

    ghost invariant = { λ _. ⊤ };
}

impl CalledShapes {
    /// Those of a core, in time of the results of all instances.
    ///
    /// # Errors
    ///
    /// `Memory`: there is none for them.
    pub fn of_core(alloc: Global, core: &Core) -> Result<CalledShapes, Memory>
        ensures { IfOk result (λ shapes. shapes_of shapes ≡ called (core_term core.now)) }
    {
        let mut groups = Vec::new(alloc);
        for group in &core.groups {
            groups.push(group_shapes(alloc, &core.functions, group)?)?;
        }
        Ok(CalledShapes { groups })
    }

    /// Those of a group. A group that is not there has none.
    pub fn at(&self, group: u32) -> &[Option<Shape>]
        ensures { result.now ≡ shapes_of self.now group }
    {
        match self.groups.get(group as usize) {
            Some(shapes) => shapes,
            None => &[],
        }
    }

    /// What is known of the results of a call of a group.
    ///
    /// # Errors
    ///
    /// `Memory`: there is none for the list.
    pub fn facts(&self, alloc: Global, group: u32) -> Result<Vec<Known>, Memory>
        ensures { IfOk result (λ facts. map fact_of facts.items ≡ map shape_fact (shapes_of self.now group)) }
    {
        let mut facts = Vec::new(alloc);
        for shape in self.at(group) {
            facts.push(Known::of_shape(copy_shape(shape)))?;
        }
        Ok(facts)
    }
}

fn copy_shape(shape: &Option<Shape>) -> Option<Shape>
    ensures { result ≡ shape.now }
{
    match shape {
        Some(shape) => Some(shape.copy()),
        None => None,
    }
}

// The shapes that the functions at all of these places have, from the last place on.
fn group_shapes(
    alloc: Global,
    functions: &[CoreFun],
    group: &[u32],
) -> Result<Vec<Option<Shape>>, Memory>
    ensures { IfOk result (λ shapes. shapes.items ≡ shapes_at (map fun_term functions.now) group.now) }
{
    let Some(last) = group.last() else {
        return Ok(Vec::new(alloc));
    };
    let mut shapes = shapes_of_results(alloc, functions, *last)?;
    let mut k = group.len() - 1;
    while k > 0 {
        k -= 1;
        let others = shapes_of_results(alloc, functions, group[k])?;
        shapes = common(alloc, &others, &shapes)?;
    }
    Ok(shapes)
}

// The shapes that a function's result types name. There are none where no function stands.
fn shapes_of_results(
    alloc: Global,
    functions: &[CoreFun],
    place: u32,
) -> Result<Vec<Option<Shape>>, Memory>
    ensures { IfOk result (λ shapes. shapes.items ≡ result_shapes (slice_get (map fun_term functions.now) place)) }
{
    match functions.get(place as usize) {
        Some(function) => type_shapes(alloc, &function.results),
        None => Ok(Vec::new(alloc)),
    }
}

fn type_shapes(alloc: Global, types: &[ArrayType]) -> Result<Vec<Option<Shape>>, Memory>
    ensures { IfOk result (λ shapes. shapes.items ≡ map shape_of_type types.now) }
{
    let mut shapes = Vec::new(alloc);
    for ty in types {
        shapes.push(type_shape(&ty.part, &None))?;
    }
    Ok(shapes)
}

// The shapes that both have, place by place.
fn common(
    alloc: Global,
    a: &[Option<Shape>],
    b: &[Option<Shape>],
) -> Result<Vec<Option<Shape>>, Memory>
    ensures { IfOk result (λ shapes. shapes.items ≡ common_shapes a.now b.now) }
{
    let mut shapes = Vec::new(alloc);
    for k in 0..a.len().min(b.len()) {
        shapes.push(one_shape(&a[k], &b[k]))?;
    }
    Ok(shapes)
}

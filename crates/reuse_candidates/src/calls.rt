//! What is known of the results of calls: their shapes and bases, in all instances of a group.

ghost use Rattle.std.specs.Prelude.{◌≡◌, IfOk, map, slice_get};
ghost use Rattle.core_ir.specs.View.{core_term, fun_term};
ghost use Rattle.core_facts.specs.constants.Called.{called};
ghost use Rattle.counted_code.specs.Terms.{core_of_code};
ghost use Rattle.counted_code.specs.View.{code_program, code_fun_term};
ghost use Rattle.counted_marks.specs.Bases.{bases_at, both_bases as both_of, common_bases, result_bases, typed};
ghost use Rattle.plain_facts.specs.Called.{shapes_of};
ghost use Rattle.reuse_candidates.specs.Calls.{bases_in, bases_of_types, results_of, same_groups, same_results};

use core_ir::{Block, Core, CoreFun};
use counted_code::{Code, CodeFun};
use plain_facts::CalledShapes;
use sac_base::{ArrayType, Base, Memory, copy_name, copy_type, same_base};
use std::alloc::Global;
use std::marker::Model;

/// The bases of the results of each group, where all instances have the same.
#[derive(Drop)]
pub struct CalledBases {
    groups: Vec<Vec<Option<Base>>>,
}

impl Model for CalledBases {
    ghost use Rattle.std.specs.Prelude.{List, Option, map, ⊤};
    ghost use Rattle.sac_base.specs.declared.base.Base.{Base};

    ghost Value = { List (List (Option Base)) };

    ghost view = { λ bases. map (λ group. group.items) bases.groups.items };

    ghost invariant = { λ _. ⊤ };
}

impl CalledBases {
    /// Those of a core, in time of the results of all instances.
    ///
    /// # Errors
    ///
    /// `Memory`: there is none for them.
    pub fn of_core(alloc: Global, core: &Core) -> Result<CalledBases, Memory>
        ensures { IfOk result (λ bases. bases_in bases ≡ typed (core_term core.now)) }
    {
        let mut groups = Vec::new(alloc);
        for group in &core.groups {
            groups.push(group_bases(alloc, &core.functions, group)?)?;
        }
        Ok(CalledBases { groups })
    }

    /// Those of a group. A group that is not there has none.
    pub fn at(&self, group: u32) -> &[Option<Base>]
        ensures { result.now ≡ bases_in self.now group }
    {
        match self.groups.get(group as usize) {
            Some(bases) => bases,
            None => &[],
        }
    }
}

/// The bases that the functions at all of these places have, from the last place on.
fn group_bases(
    alloc: Global,
    functions: &[CoreFun],
    group: &[u32],
) -> Result<Vec<Option<Base>>, Memory>
    ensures { IfOk result (λ bases. bases.items ≡ bases_at (map fun_term functions.now) group.now) }
{
    let Some(last) = group.last() else {
        return Ok(Vec::new(alloc));
    };
    let mut bases = bases_of_results(alloc, functions, *last)?;
    let mut k = group.len() - 1;
    while k > 0 {
        k -= 1;
        let others = bases_of_results(alloc, functions, group[k])?;
        bases = common(alloc, &others, &bases)?;
    }
    Ok(bases)
}

/// The bases that a function's result types name. There are none where no function stands.
fn bases_of_results(
    alloc: Global,
    functions: &[CoreFun],
    place: u32,
) -> Result<Vec<Option<Base>>, Memory>
    ensures { IfOk result (λ bases. bases.items ≡ result_bases (slice_get (map fun_term functions.now) place)) }
{
    match functions.get(place as usize) {
        Some(function) => type_bases(alloc, &function.results),
        None => Ok(Vec::new(alloc)),
    }
}

fn type_bases(alloc: Global, types: &[ArrayType]) -> Result<Vec<Option<Base>>, Memory>
    ensures { IfOk result (λ bases. bases.items ≡ bases_of_types types.now) }
{
    let mut bases = Vec::new(alloc);
    for ty in types {
        bases.push(Some(ty.base))?;
    }
    Ok(bases)
}

/// The bases that both have, place by place.
fn common(
    alloc: Global,
    a: &[Option<Base>],
    b: &[Option<Base>],
) -> Result<Vec<Option<Base>>, Memory>
    ensures { IfOk result (λ bases. bases.items ≡ common_bases a.now b.now) }
{
    let mut bases = Vec::new(alloc);
    for k in 0..a.len().min(b.len()) {
        bases.push(both_bases(a[k], b[k]))?;
    }
    Ok(bases)
}

fn both_bases(a: Option<Base>, b: Option<Base>) -> Option<Base>
    ensures { result ≡ both_of a b }
{
    match (a, b) {
        (Some(s), Some(t)) if same_base(s, t) => Some(s),
        _ => None,
    }
}

/// What is known of the results of calls of each group.
#[derive(Drop)]
pub struct Calls {
    pub shapes: CalledShapes,
    pub bases: CalledBases,
}

/// What is known of the results of calls in a program.
///
/// # Errors
///
/// `Memory`: there is none for it.
pub fn calls_of(alloc: Global, code: &Code) -> Result<Calls, Memory>
    ensures shapes { IfOk result (λ calls. shapes_of calls.shapes ≡ called (core_of_code (code_program code.now))) }
    ensures bases { IfOk result (λ calls. bases_in calls.bases ≡ typed (core_of_code (code_program code.now))) }
{
    let core = without_bodies(alloc, code)?;
    Ok(Calls {
        shapes: CalledShapes::of_core(alloc, &core)?,
        bases: CalledBases::of_core(alloc, &core)?,
    })
}

/// A core with the same groups, whose functions have the same results and do nothing.
fn without_bodies(alloc: Global, code: &Code) -> Result<Core, Memory>
    ensures groups { IfOk result (λ core. same_groups core ≡ (code_program code.now).groups) }
    ensures results { IfOk result (λ core. same_results core ≡ results_of code.now) }
{
    let mut functions = Vec::new(alloc);
    for function in &code.functions {
        functions.push(without_body(alloc, function)?)?;
    }
    let mut groups = Vec::new(alloc);
    for group in &code.groups {
        groups.push(Vec::from_slice(alloc, group)?)?;
    }
    Ok(Core {
        functions,
        groups,
        main: code.main,
    })
}

fn without_body(alloc: Global, function: &CodeFun) -> Result<CoreFun, Memory>
    ensures { IfOk result (λ f. (fun_term f).results ≡ (code_fun_term function.now).results) }
{
    Ok(CoreFun {
        name: copy_name(&function.name)?,
        site: function.site,
        params: Vec::new(alloc),
        results: copy_types(alloc, &function.results)?,
        inline: function.inline,
        body: Block {
            lets: Vec::new(alloc),
            results: Vec::new(alloc),
        },
        ends: function.ends,
    })
}

/// Equal types.
pub fn copy_types(alloc: Global, types: &[ArrayType]) -> Result<Vec<ArrayType>, Memory>
    ensures { IfOk result (λ copy. copy.items ≡ types.now) }
{
    let mut copy = Vec::new(alloc);
    for ty in types {
        copy.push(copy_type(ty))?;
    }
    Ok(copy)
}

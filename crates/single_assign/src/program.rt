//! The core of a whole program.

ghost use Rattle.std.specs.Prelude.{◌≡◌, ◌<◌, ◌^◌, ℕ, IfOk, [], List, OnOk, length, map, position, replicate, unwrap_or};
ghost use Rattle.sac_ast.specs.Tree.{FunctionTree};
ghost use Rattle.sac_ast.specs.View.{function, functions as trees, program as tree};
ghost use Rattle.core_ir.specs.View.{core_term, fun_term};
ghost use Rattle.core_ir.specs.WellFormed.{IsWellFormed};
ghost use Rattle.source_meaning.specs.Calls.{is_main};
ghost use Rattle.core_lowering.specs.acceptance.Formed.{ProgramFormed};
ghost use Rattle.core_lowering.specs.Programs.{function_names as names_of_functions, HasOutcomeOf, lowered_program, places_of as places_of_name};
ghost use Rattle.core_lowering.specs.steps.Functions.{params_declared};
ghost use Rattle.single_assign.specs.Functions.{function_from, function_in, function_of, functions_by, params_made, program_named, with_parts, with_place};
ghost use Rattle.core_scopes.specs.Looks.{look, texts};
ghost use Rattle.core_scopes.specs.Built.{built};
ghost use Rattle.single_assign.specs.Views.{place_by};

use crate::context::Context;
use crate::lower::{lower_all, lower_block};
use check_rules::functions::Functions;
use core_ir::{Block, Core, CoreFun, Var};
use core_scopes::{Builder, Scope};
use indexmap::IndexSet;
use sac_ast::{Function, Param, Program};
use sac_base::{ArrayType, Memory, copy_name, copy_type};
use sac_bases::known_in;
use std::alloc::Global;
use type_check::Checked;

/// The parameters of a function as variables, and its block.
#[derive(Drop)]
pub struct Parts {
    pub params: Vec<(Var, ArrayType)>,
    pub body: Block,
}

/// The core of an accepted program: each assignment makes new variables, each conditional gives the variables bound in it, and each loop carries
/// those that it binds.
///
/// Of a program that has the form that the grammar gives, the core is well formed, and on all arguments and under all limits its outcome is that of
/// the program, faults and their sites included.
///
/// # Errors
///
/// `Memory`, also where there are 2^32 functions or more, or would be as many variables in one of them.
pub fn to_core(alloc: Global, checked: &Checked) -> Result<Core, Memory>
    ensures lowered { IfOk result (λ core. core_term core ≡ lowered_program (tree checked.now.program)) }
    ensures well_formed { ProgramFormed (tree checked.now.program) → IfOk result (λ core. IsWellFormed (core_term core)) }
    ensures outcome { ProgramFormed (tree checked.now.program) → IfOk result (λ core. HasOutcomeOf (tree checked.now.program) (core_term core)) }
{
    let program = checked.program();
    few(&program.functions)?;
    lower_program(alloc, program)
}

// Where there are 2^32 functions or more, memory is wanting.
fn few(functions: &[Function]) -> Result<(), Memory>
    ensures { OnOk result (length functions.now < 2 ^ 32) }
{
    let _count = small_place(functions.len())?;
    Ok(())
}

fn lower_program(alloc: Global, program: &Program) -> Result<Core, Memory>
    ensures { IfOk result (λ core. core_term core ≡ lowered_program (tree program.now)) }
{
    let names = function_names(alloc, &program.functions)?;
    lower_named(alloc, program, &names)
}

// The core of a program whose functions are called by these names. They are their caller's, so that they are dropped in one place.
fn lower_named(alloc: Global, program: &Program, names: &IndexSet<&str>) -> Result<Core, Memory>
    ensures { IfOk result (λ core. core_term core ≡ program_named (texts names.now.keys) (tree program.now)) }
{
    let main = main_place(program)?;
    let groups = groups(alloc, &program.functions, names)?;
    let functions = lower_functions(alloc, &program.functions, names)?;
    Ok(Core {
        functions,
        groups,
        main,
    })
}

// The names of functions, each once.
fn function_names<'a>(alloc: Global, functions: &'a [Function]) -> Result<IndexSet<&'a str>, Memory>
    ensures { IfOk result (λ names. texts names.keys ≡ names_of_functions (trees functions.now)) }
{
    let mut names = IndexSet::new(alloc);
    for f in functions {
        names.insert(f.name.as_str())?;
    }
    Ok(names)
}

fn small_place(place: usize) -> Result<u32, Memory>
    ensures { IfOk result (λ small. small ≡ place) }
{
    match u32::try_from(place) {
        Ok(small) => Ok(small),
        Err(_) => Err(Memory),
    }
}

// The places of each name's instances.
fn groups(
    alloc: Global,
    functions: &[Function],
    names: &IndexSet<&str>,
) -> Result<Vec<Vec<u32>>, Memory>
    ensures { IfOk result (λ v. map (λ g. g.items) v.items ≡ map (λ x. places_of_name x 0 (trees functions.now)) (texts names.now.keys)) }
{
    let mut groups = empty_groups(alloc, names.len())?;
    for k in 0..functions.len() {
        let place = small_place(k)?;
        add_place(&mut groups, names, functions[k].name.as_str(), place)?;
    }
    Ok(groups)
}

fn empty_groups(alloc: Global, count: usize) -> Result<Vec<Vec<u32>>, Memory>
    ensures { IfOk result (λ v. map (λ g. g.items) v.items ≡ replicate count []) }
{
    let mut groups = Vec::new(alloc);
    for _ in 0..count {
        groups.push(Vec::new(alloc))?;
    }
    Ok(groups)
}

// Adds a place to the group of a name.
fn add_place(
    groups: &mut Vec<Vec<u32>>,
    names: &IndexSet<&str>,
    name: &str,
    place: u32,
) -> Result<(), Memory>
    requires { length groups.old.items ≡ length names.now.keys }
    ensures { OnOk result (map (λ g. g.items) groups.new.items ≡ with_place name.now place (texts names.now.keys) (map (λ g. g.items) groups.old.items)) }
{
    let _count = names.len();
    if let Some(group) = names.get_index_of(name) {
        groups[group].push(place)?;
    }
    Ok(())
}

// The place of `main`, and 0 where there is none.
fn main_place(program: &Program) -> Result<u32, Memory>
    ensures { IfOk result (λ place. place ≡ unwrap_or (position is_main (trees program.now.functions.items)) 0) }
{
    match program.main_place() {
        Some(place) => small_place(place),
        None => Ok(0),
    }
}

fn lower_functions(
    alloc: Global,
    functions: &[Function],
    names: &IndexSet<&str>,
) -> Result<Vec<CoreFun>, Memory>
    ensures { IfOk result (λ v. map fun_term v.items ≡ functions_by (place_by names.now) (trees functions.now) (trees functions.now)) }
{
    let by_name = Functions::new(alloc, functions)?;
    lower_each(alloc, &by_name, names, functions)
}

// Functions of a program, one after another.
fn lower_each(
    alloc: Global,
    all: &Functions<'_>,
    names: &IndexSet<&str>,
    functions: &[Function],
) -> Result<Vec<CoreFun>, Memory>
    ensures { IfOk result (λ v. map fun_term v.items ≡ functions_by (place_by names.now) (trees all.now.all.now) (trees functions.now)) }
{
    let mut cores = Vec::new(alloc);
    for f in functions {
        let core = lower_one(alloc, all, names, f)?;
        cores.push(core)?;
    }
    Ok(cores)
}

fn lower_one(
    alloc: Global,
    functions: &Functions<'_>,
    names: &IndexSet<&str>,
    f: &Function,
) -> Result<CoreFun, Memory>
    ensures { IfOk result (λ core. fun_term core ≡ function_of (place_by names.now) (trees functions.now.all.now) (function f.now)) }
{
    let known = known_in(alloc, functions, f)?;
    let cx = Context {
        alloc,
        functions,
        names,
        known: &known,
    };
    lower_function(f, &cx)
}

// The parameters of a function as variables.
fn lower_params(
    params: &[Param],
    alloc: Global,
    scope: &mut Scope<'_>,
    out: &mut Builder,
) -> Result<Vec<(Var, ArrayType)>, Memory>
    ensures { IfOk result (λ v. params_made (built out.new) v.items (look scope.new) ≡ params_declared params.now (look scope.old) (built out.old)) }
{
    let mut typed = Vec::new(alloc);
    for param in params {
        let var = out.fresh()?;
        scope.bind(alloc, param.name.as_str(), var)?;
        typed.push((var, copy_type(&param.ty)))?;
    }
    Ok(typed)
}

fn copy_types(alloc: Global, types: &[ArrayType]) -> Result<Vec<ArrayType>, Memory>
    ensures { IfOk result (λ v. v.items ≡ types.now) }
{
    let mut copies = Vec::new(alloc);
    for ty in types {
        copies.push(copy_type(ty))?;
    }
    Ok(copies)
}

fn lower_function(f: &Function, cx: &Context<'_>) -> Result<CoreFun, Memory>
    ensures { IfOk result (λ core. fun_term core ≡ function_in cx.now (function f.now)) }
{
    let parts = lower_parts(f, cx)?;
    let name = copy_name(&f.name)?;
    let results = copy_types(cx.alloc, &f.results)?;
    Ok(CoreFun {
        name,
        site: f.site,
        params: parts.params,
        results,
        inline: f.inline,
        body: parts.body,
        ends: f.ends,
    })
}

fn lower_parts(f: &Function, cx: &Context<'_>) -> Result<Parts, Memory>
    ensures { IfOk result (λ p. with_parts (function f.now) p ≡ function_in cx.now (function f.now)) }
{
    let mut scope = Scope::new(cx.alloc);
    lower_parts_in(f, cx, &mut scope)
}

// The parts of a function in a scope. It is its caller's, so that it is dropped in one place.
fn lower_parts_in(f: &Function, cx: &Context<'_>, scope: &mut Scope<'_>) -> Result<Parts, Memory>
    ensures { IfOk result (λ p. with_parts (function f.now) p ≡ function_from cx.now (function f.now) (look scope.old)) }
{
    let mut out = Builder::new(cx.alloc);
    let params = lower_params(&f.params, cx.alloc, scope, &mut out)?;
    lower_block(&f.body, cx, scope, &mut out)?;
    let values = lower_all(&f.values, cx, scope, &mut out)?;
    Ok(Parts {
        params,
        body: out.finish(values),
    })
}

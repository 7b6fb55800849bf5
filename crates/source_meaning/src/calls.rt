//! What a call does besides running a body.

ghost use Rattle.std.specs.Prelude.{◌≡◌, ◌<◌, [], ◌∷◌, Ok, IfSome, length, map, ◌&&◌};
ghost use Rattle.sac_ast.specs.View.{function as tree, functions as trees, index_view};
ghost use Rattle.sac_base.specs.Arrays.{scalar};
ghost use Rattle.sac_base.specs.Types.{all_have as all_have_value, all_below as all_below_value};
ghost use Rattle.source_meaning.specs.Calls.{chosen, fits as fits_value, is_least as is_least_value};
ghost use Rattle.source_meaning.specs.Environments.{env_of};
ghost use Rattle.source_meaning.specs.Parameters.{names_of_params, types_of_params};
ghost use Rattle.source_meaning.specs.Meaning.{names, with_index};
ghost use Rattle.array_ops.specs.Tells.{Tells, TellsEnv};
ghost use Rattle.sac_base.specs.Outcomes.{first_result, with_variables};

use crate::environment::{Environment, assign};
use array_with_loops::IndexVector;
use sac_ast::{Function, Index, Param, Target};
use sac_base::{Array, Base, Name, Stop, contains, copy_array, same_name};
use shape_types::below;
use std::alloc::Global;

/// The place of the least instance that fits the arguments.
pub fn choose_instance(functions: &[Function], name: &Name, args: &[Array]) -> Option<usize>
    ensures told { result ≡ chosen (trees functions.now) name.now args.now }
    ensures within { IfSome result (λ p. p < length functions.now) }
{
    for i in 0..functions.len() {
        if is_least(functions, name, args, &functions[i]) {
            return Some(i);
        }
    }
    None
}

// Whether an instance fits, with types below those of every other instance that fits.
fn is_least(functions: &[Function], name: &Name, args: &[Array], f: &Function) -> bool
    ensures { result ≡ is_least_value (trees functions.now) name.now args.now (tree f.now) }
{
    if !fits(name, args, f) {
        return false;
    }
    for g in functions {
        if fits(name, args, g) && !all_below(&f.params, &g.params) {
            return false;
        }
    }
    true
}

// Whether a function has the name, and types that contain the arguments.
fn fits(name: &Name, args: &[Array], f: &Function) -> bool
    ensures { result ≡ fits_value name.now args.now (tree f.now) }
{
    same_name(&f.name, name) && all_fit(&f.params, args)
}

/// Whether the arguments are in the types of the parameters, and as many.
pub fn all_fit(params: &[Param], args: &[Array]) -> bool
    ensures { result ≡ all_have_value (types_of_params params.now) args.now }
{
    if params.len() != args.len() {
        return false;
    }
    for k in 0..params.len() {
        if !contains(&params[k].ty, &args[k]) {
            return false;
        }
    }
    true
}

// Whether the types of parameters are each below those of others, and as many.
fn all_below(params: &[Param], others: &[Param]) -> bool
    ensures { result ≡ all_below_value (types_of_params params.now) (types_of_params others.now) }
{
    if params.len() != others.len() {
        return false;
    }
    for k in 0..params.len() {
        if !below(&params[k].ty, &others[k].ty) {
            return false;
        }
    }
    true
}

/// The first result of a call.
pub fn first_result_of(alloc: Global, results: &[Array]) -> Result<Array, Stop>
    ensures { Tells result (Ok (first_result results.now)) }
{
    match results.first() {
        Some(value) => Ok(copy_array(value)?),
        None => Ok(Array::scalar(alloc, Base::Int, 0)?),
    }
}

/// Binds targets to results.
pub fn assign_all(
    env: &mut Environment<'_>,
    targets: &[Target],
    results: Vec<Array>,
) -> Result<(), Stop>
    ensures { TellsEnv result (env_of env.new) (Ok (with_variables (names targets.now) results.items (env_of env.old))) }
{
    let mut left = results;
    for target in targets {
        if left.is_empty() {
            return Ok(());
        }
        let value = left.remove(0);
        assign(env, &target.name, value)?;
    }
    Ok(())
}

/// Binds a target to a value.
pub fn assign_one(env: &mut Environment<'_>, targets: &[Target], value: Array) -> Result<(), Stop>
    ensures { TellsEnv result (env_of env.new) (Ok (with_variables (names targets.now) (value ∷ []) (env_of env.old))) }
{
    match targets.first() {
        Some(target) => {
            assign(env, &target.name, value)?;
            Ok(())
        }
        None => Ok(()),
    }
}

/// Binds parameters to arguments.
pub fn bind_params(
    env: &mut Environment<'_>,
    params: &[Param],
    args: Vec<Array>,
) -> Result<(), Stop>
    ensures { TellsEnv result (env_of env.new) (Ok (with_variables (names_of_params params.now) args.items (env_of env.old))) }
{
    let mut left = args;
    for param in params {
        if left.is_empty() {
            return Ok(());
        }
        let value = left.remove(0);
        assign(env, &param.name, value)?;
    }
    Ok(())
}

/// Binds the index of a generator.
pub fn bind_index(
    alloc: Global,
    env: &mut Environment<'_>,
    index: &Index,
    v: &IndexVector,
) -> Result<(), Stop>
    ensures { TellsEnv result (env_of env.new) (Ok (with_index (index_view index.now) v.now (env_of env.old))) }
{
    match index {
        Index::Named(target) => {
            let cells = Vec::from_slice(alloc, v.components())?;
            assign(env, &target.name, Array::vector(alloc, Base::Int, cells))?;
            Ok(())
        }
        Index::Parts(targets) => bind_parts(alloc, env, targets, v.components()),
    }
}

// Binds names to the components of an index vector.
fn bind_parts(
    alloc: Global,
    env: &mut Environment<'_>,
    targets: &[Target],
    v: &[i32],
) -> Result<(), Stop>
    ensures { TellsEnv result (env_of env.new) (Ok (with_variables (names targets.now) (map (scalar Base.Int) v.now) (env_of env.old))) }
{
    for k in 0..targets.len().min(v.len()) {
        let value = Array::scalar(alloc, Base::Int, v[k])?;
        assign(env, &targets[k].name, value)?;
    }
    Ok(())
}

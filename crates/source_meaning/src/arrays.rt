//! The variable that an operation reads, and built-in functions.

ghost use Rattle.std.specs.Prelude.{◌≡◌, Ok};
ghost use Rattle.sac_base.specs.Outcomes.{at_site, or_zero};
ghost use Rattle.sac_base.specs.Parts.{replace as replace_value};
ghost use Rattle.source_meaning.specs.Environments.{env_of};
ghost use Rattle.source_meaning.specs.Meaning.{built_in};
ghost use Rattle.array_ops.specs.Tells.{Tells};

use crate::environment::{Environment, lookup};
use array_ops::{dim, placed, replace, reshape, shape_vector};
use sac_ast::Builtin;
use sac_base::{Array, Base, FaultKind, Name, Site, Stop, copy_array, fault};
use std::alloc::Global;

/// The value of a variable with another part at an index.
pub fn replace_at(
    alloc: Global,
    env: &Environment<'_>,
    name: &Name,
    index: &Array,
    part: &Array,
    site: Site,
) -> Result<Array, Stop>
    ensures { Tells result (at_site site (replace_value (or_zero (env_of env.now name.now)) index.now part.now)) }
{
    match lookup(env, name) {
        Some(a) => placed(replace(alloc, a, index, part), site),
        None => {
            let zero = Array::scalar(alloc, Base::Int, 0)?;
            placed(replace(alloc, &zero, index, part), site)
        }
    }
}

/// A built-in function.
pub fn built_in_at(alloc: Global, b: Builtin, values: &[Array], site: Site) -> Result<Array, Stop>
    ensures { Tells result (at_site site (built_in b values.now)) }
{
    match (b, values) {
        (Builtin::Dim, [a, ..]) => Ok(dim(alloc, a)?),
        (Builtin::Shape, [a, ..]) => Ok(shape_vector(alloc, a)?),
        (Builtin::Reshape, [shape, a, ..]) => placed(reshape(alloc, shape, a), site),
        _ => Err(fault(FaultKind::F4, site)),
    }
}

/// The value of a variable.
pub fn value_of(alloc: Global, env: &Environment<'_>, name: &Name) -> Result<Array, Stop>
    ensures { Tells result (Ok (or_zero (env_of env.now name.now))) }
{
    match lookup(env, name) {
        Some(value) => Ok(copy_array(value)?),
        None => Ok(Array::scalar(alloc, Base::Int, 0)?),
    }
}

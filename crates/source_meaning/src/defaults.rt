//! The base of a default that is left out.

ghost use Rattle.std.specs.Prelude.{◌≡◌, IfOk};
ghost use Rattle.sac_ast.specs.Bases.{base_in as base_in_value};
ghost use Rattle.sac_ast.specs.View.{function as tree, functions as trees, generators};
ghost use Rattle.source_meaning.specs.Meaning.{default_base as default_base_value, default_or};

use sac_ast::{Function, Generator};
use sac_base::{Array, Base, Memory};
use sac_bases::base_in;
use std::alloc::Global;

/// The base of the first generator's cell, in a function of a program; int without a generator, and where it has none.
pub fn default_base(
    alloc: Global,
    functions: &[Function],
    current: &Function,
    gs: &[Generator],
) -> Result<Base, Memory>
    ensures { IfOk result (λ b. b ≡ default_base_value (base_in_value (trees functions.now) (tree current.now)) (generators gs.now)) }
{
    match gs.first() {
        None => Ok(Base::Int),
        Some(g) => match base_in(&g.cell, alloc, functions, current)? {
            None => Ok(Base::Int),
            Some(base) => Ok(base),
        },
    }
}

/// A default, or zero of the base that it has where it is left out.
pub fn default_or_zero(
    alloc: Global,
    functions: &[Function],
    current: &Function,
    gs: &[Generator],
    given: Option<Array>,
) -> Result<Array, Memory>
    ensures { IfOk result (λ a. a ≡ default_or (default_base_value (base_in_value (trees functions.now) (tree current.now)) (generators gs.now)) given) }
{
    match given {
        Some(array) => Ok(array),
        None => {
            let base = default_base(alloc, functions, current, gs)?;
            Array::scalar(alloc, base, 0)
        }
    }
}

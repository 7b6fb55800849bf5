//! Operations on arrays at a place of the source.

ghost use Rattle.std.specs.Prelude.{◌≡◌, IfOk, Ok, Result, if◌then◌else◌};
ghost use Rattle.array_ops.specs.Answers.{Gives};
ghost use Rattle.sac_base.specs.Arrays.{ArrayValue};
ghost use Rattle.sac_base.specs.Operators.{binary as binary_value, unary as unary_value};
ghost use Rattle.sac_base.specs.Outcomes.{at_site, fault as fault_at};
ghost use Rattle.sac_base.specs.Types.{all_have as all_have_value};
ghost use Rattle.sac_base.specs.Parts.{condition as condition_value, literal as literal_value, select as select_value};
ghost use Rattle.sac_base.specs.declared.faults.FaultKind.{FaultKind as Kind};
ghost use Rattle.array_ops.specs.Tells.{Tells, TellsItems, TellsCondition};

use crate::elements::{binary, unary};
use crate::error::ArrayError;
use crate::literals::literal;
use crate::parts::{condition, select};
use sac_base::{Array, ArrayType, FaultKind, Memory, Op, Site, Stop, contains, copy_array, fault};
use std::alloc::Global;

/// An answer of an operation, with the place of its fault in the source.
pub fn placed(answer: Result<Array, ArrayError>, site: Site) -> Result<Array, Stop>
    ensures { (meant : Result ArrayValue Kind) → Gives answer meant → Tells result (at_site site meant) }
{
    match answer {
        Ok(array) => Ok(array),
        Err(ArrayError::Faulted(kind)) => Err(fault(kind, site)),
        Err(ArrayError::Memory) => Err(Stop::Memory),
    }
}

/// An operator of one array.
pub fn unary_of(alloc: Global, op: Op, a: &Array) -> Result<Array, Stop>
    ensures { Tells result (Ok (unary_value op a.now)) }
{
    Ok(unary(alloc, op, a)?)
}

/// An operator of two arrays.
pub fn binary_at(alloc: Global, op: Op, a: &Array, b: &Array, site: Site) -> Result<Array, Stop>
    ensures { Tells result (at_site site (binary_value op a.now b.now)) }
{
    placed(binary(alloc, op, a, b), site)
}

/// An array literal.
pub fn literal_at(alloc: Global, values: &[Array], site: Site) -> Result<Array, Stop>
    ensures { Tells result (at_site site (literal_value values.now)) }
{
    placed(literal(alloc, values), site)
}

/// The part of an array at an index.
pub fn select_at(alloc: Global, a: &Array, index: &Array, site: Site) -> Result<Array, Stop>
    ensures { Tells result (at_site site (select_value a.now index.now)) }
{
    placed(select(alloc, a, index), site)
}

/// What a condition says.
pub fn condition_at(a: &Array, site: Site) -> Result<bool, Stop>
    ensures { TellsCondition result site (condition_value a.now) }
{
    match condition(a) {
        Some(truth) => Ok(truth),
        None => Err(fault(FaultKind::F3, site)),
    }
}

/// The results of a function, which must be in their types.
pub fn results_of(types: &[ArrayType], values: Vec<Array>, ends: Site) -> Result<Vec<Array>, Stop>
    ensures { TellsItems result (if all_have_value types.now values.items then Ok values.items else fault_at FaultKind.F7 ends) }
{
    if all_have(types, &values) {
        Ok(values)
    } else {
        Err(fault(FaultKind::F7, ends))
    }
}

// Whether the values are in the types, and as many.
fn all_have(types: &[ArrayType], values: &[Array]) -> bool
    ensures { result ≡ all_have_value types.now values.now }
{
    if types.len() != values.len() {
        return false;
    }
    for k in 0..types.len() {
        if !contains(&types[k], &values[k]) {
            return false;
        }
    }
    true
}

/// Equal arrays.
pub fn copy_all(alloc: Global, arrays: &[Array]) -> Result<Vec<Array>, Memory>
    ensures { IfOk result (λ copies. copies.items ≡ arrays.now) }
{
    let mut copies = Vec::new(alloc);
    for array in arrays {
        copies.push(copy_array(array)?)?;
    }
    Ok(copies)
}

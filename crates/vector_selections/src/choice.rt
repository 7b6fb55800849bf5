//! Which selections go by vectors, and the bindings of these.

ghost use Rattle.std.specs.Prelude.{◌≡◌, ◌&&◌, ◌++◌, not, [], ◌∷◌, suc, IfOk, OnOk, map};
ghost use Rattle.core_ir.specs.View.{let_term, right_term};
ghost use Rattle.core_loops.specs.Indices.{is_scalar_shape};
ghost use Rattle.core_forms.specs.selections.Vectors.{by_scalar, is_open_scalar as is_open};
ghost use Rattle.fact_table.specs.Table.{fact_of, facts_of};
ghost use Rattle.vector_selections.specs.Choice.{chosen};
ghost use Rattle.vector_selections.specs.Vectored.{vector_let};

use core_ir::{Let, Right, Var};
use fact_table::{FactTable, Known};
use sac_base::{Memory, Shape, Site};
use std::alloc::Global;

/// A selection from an array at an index.
#[derive(Clone, Copy)]
pub struct Selection {
    pub array: Var,
    pub index: Var,
}

/// The selection by a scalar that is not literal, if the right side is one.
pub fn scalar_selection(right: &Right, facts: &FactTable) -> Option<Selection>
    ensures { chosen result ≡ by_scalar (right_term right.now) (facts_of facts.now) }
{
    match right {
        Right::Select(array, index) => {
            if is_open_scalar(facts.fact(*index)) {
                Some(Selection {
                    array: *array,
                    index: *index,
                })
            } else {
                None
            }
        }
        _ => None,
    }
}

fn is_open_scalar(known: &Known) -> bool
    ensures { result ≡ is_open (fact_of known.now) }
{
    is_scalar(&known.shape) && known.literal.is_none()
}

fn is_scalar(shape: &Option<Shape>) -> bool
    ensures { result ≡ is_scalar_shape shape.now }
{
    match shape {
        Some(shape) => shape.rank() == 0,
        None => false,
    }
}

/// Binds the next variable to the vector of a number.
///
/// # Errors
///
/// `Memory`: there is none for a binding, or no number of 32 bits for another variable.
pub fn bind_vector(
    alloc: Global,
    site: Site,
    number: Var,
    fresh: &mut u32,
    done: &mut Vec<Let>,
) -> Result<Var, Memory>
    ensures taken { IfOk result (λ var. var.0 ≡ fresh.old) }
    ensures bound { OnOk result (map let_term done.new.items ≡ map let_term done.old.items ++ (vector_let fresh.old site number ∷ [])) }
    ensures fresh { OnOk result (fresh.new ≡ suc fresh.old) }
{
    let vector = take(fresh)?;
    let targets = one(alloc, vector)?;
    let numbers = one(alloc, number)?;
    done.push(Let {
        targets,
        site,
        right: Right::Literal(numbers),
    })?;
    Ok(vector)
}

/// The variable of the next number.
fn take(fresh: &mut u32) -> Result<Var, Memory>
    ensures taken { IfOk result (λ var. var.0 ≡ fresh.old) }
    ensures fresh { OnOk result (fresh.new ≡ suc fresh.old) }
{
    let number = *fresh;
    match number.checked_add(1) {
        Some(next) => {
            *fresh = next;
            Ok(Var(number))
        }
        None => Err(Memory),
    }
}

fn one(alloc: Global, var: Var) -> Result<Vec<Var>, Memory>
    ensures { IfOk result (λ vars. vars.items ≡ var ∷ []) }
{
    let mut vars = Vec::new(alloc);
    vars.push(var)?;
    Ok(vars)
}

//! The components of a new index.

ghost use Rattle.std.specs.Prelude.{◌≡◌, ◌+◌, ◌≤◌, suc, [], ◌∷◌, IfOk, OnOk, map, pos};
ghost use Rattle.sac_base.specs.declared.base.Base.TheVariants.{Int};
ghost use Rattle.sac_base.specs.Arrays.{scalar};
ghost use Rattle.core_ir.specs.Terms.{PlainTerm, Plain};
ghost use Rattle.core_ir.specs.View.{let_term, right_term};
ghost use Rattle.core_forms.specs.merge.Built.{picks};
ghost use Rattle.merged_parts.specs.Merging.{every_other};

use core_ir::{Let, Right, Var};
use parted_bodies::Progress;
use sac_base::{Array, Base, Memory, Site};
use std::alloc::Global;

/// The components of an index, and the bindings that make them: each by a constant and a selection.
#[derive(Drop)]
pub struct Components {
    pub lets: Vec<Let>,
    pub vars: Vec<Var>,
}

/// The components of an index of so many axes.
///
/// # Errors
///
/// `Memory`: there is none for the bindings, or the numbers of variables have more than 32 bits.
pub fn components_of(
    alloc: Global,
    site: Site,
    index: Var,
    axes: usize,
    progress: &mut Progress,
) -> Result<Components, Memory>
    ensures lets { IfOk result (λ c. map let_term c.lets.items
        ≡ picks site index 0 (every_other axes (suc progress.old.next)) (every_other axes progress.old.next)) }
    ensures vars { IfOk result (λ c. c.vars.items ≡ every_other axes (suc progress.old.next)) }
    ensures next { OnOk result (progress.new ≡ record progress.old { next = progress.old.next + (axes + axes) }) }
{
    let mut lets = Vec::new(alloc);
    let mut vars = Vec::new(alloc);
    for place in 0..axes {
        let constant = progress.take()?;
        let component = progress.take()?;
        let number = number_of(alloc, place)?;
        lets.push(binding(alloc, constant, site, number)?)?;
        let selection = Right::Select(index, constant);
        lets.push(binding(alloc, component, site, selection)?)?;
        vars.push(component)?;
    }
    Ok(Components { lets, vars })
}

fn number_of(alloc: Global, place: usize) -> Result<Right, Memory>
    ensures { IfOk result (λ right. right_term right ≡ Plain (PlainTerm.Const (scalar Int (pos place)))) }
{
    match i32::try_from(place) {
        Ok(number) => Ok(Right::Const(Array::scalar(alloc, Base::Int, number)?)),
        Err(_) => Err(Memory),
    }
}

/// A variable that is bound to the vector of others.
///
/// # Errors
///
/// `Memory`: there is none for the binding.
pub fn row(alloc: Global, target: Var, site: Site, vars: &[Var]) -> Result<Let, Memory>
    ensures { IfOk result (λ l. let_term l ≡ record { targets = target ∷ []; site = site; right = Plain (PlainTerm.Literal vars.now) }) }
{
    let vars = Vec::from_slice(alloc, vars)?;
    binding(alloc, target, site, Right::Literal(vars))
}

/// A binding of one variable.
fn binding(alloc: Global, target: Var, site: Site, right: Right) -> Result<Let, Memory>
    ensures { IfOk result (λ l. let_term l ≡ record { targets = target ∷ []; site = site; right = right_term right }) }
{
    let mut targets = Vec::new(alloc);
    targets.push(target)?;
    Ok(Let {
        targets,
        site,
        right,
    })
}

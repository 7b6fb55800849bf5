//! The rules of lists of names, and what they bind.

ghost use Rattle.std.specs.Prelude.{◌≡◌, [], ◌∷◌, take, length, OnOk, IfOk};
ghost use Rattle.check_rules.specs.Accepted.{no_names, with_names, target_names, param_names, known_params, index_targets, index_names};
ghost use Rattle.sac_ast.specs.View;
ghost use Rattle.check_rules.specs.First.{earlier as earlier_of};
ghost use Rattle.check_rules.specs.Tables.{among, entered, has};
ghost use Rattle.check_rules.specs.Walk.{in_targets, in_index_names, repeated_targets as targets_repeated, repeated_params as params_repeated};
ghost use Rattle.check_rules.specs.Walk.{unless_new, base_behind};

use crate::bound::Bound;
use crate::code::CheckCode;
use crate::names::{base_of, bind, note};
use crate::violation::{Violation, earlier, unless};
use indexmap::{IndexMap, IndexSet};
use sac_ast::{Index, Param, Target, may_be, may_match};
use sac_base::{Base, Memory, Name, Site};
use std::alloc::Global;

// A name stands twice in a list, where it stands before.
fn repeated<'a>(
    before: &mut IndexSet<&'a str>,
    name: &'a Name,
    site: Site,
) -> Result<Option<Violation>, Memory>
    ensures first { IfOk result (λ r. r ≡ unless_new (has before.old name.now) site) }
    ensures names { OnOk result (has before.new ≡ with_names (name.now ∷ []) (has before.old)) }
{
    let is_new = note(before, name)?;
    Ok(unless(is_new, CheckCode::C9, site))
}

/// The names that stand twice in a list of targets.
pub fn repeated_targets(targets: &[Target], alloc: Global) -> Result<Option<Violation>, Memory>
    ensures { IfOk result (λ r. r ≡ targets_repeated no_names targets.now) }
{
    if targets.len() < 2 {
        return Ok(None);
    }
    let mut before = IndexSet::new(alloc);
    let mut first = None;
    for target in targets {
        let twice = repeated(&mut before, &target.name, target.site)?;
        first = earlier(first, twice);
    }
    Ok(first)
}

/// The names that stand twice in a list of parameters.
pub fn repeated_params(params: &[Param], alloc: Global) -> Result<Option<Violation>, Memory>
    ensures { IfOk result (λ r. r ≡ params_repeated no_names params.now) }
{
    let mut before = IndexSet::new(alloc);
    let mut first = None;
    for param in params {
        let twice = repeated(&mut before, &param.name, param.site)?;
        first = earlier(first, twice);
    }
    Ok(first)
}

/// Binds targets to values of these bases, and checks that each has the base of its name.
pub fn bind_targets<'a>(
    targets: &'a [Target],
    bases: &[Option<Base>],
    known: &mut IndexMap<&'a str, Option<Base>>,
) -> Result<Option<Violation>, Memory>
    ensures first { IfOk result (λ r. r ≡ (in_targets targets.now bases.now (entered known.old)).first) }
    ensures known { OnOk result (entered known.new ≡ (in_targets targets.now bases.now (entered known.old)).known) }
{
    let mut first = None;
    for k in 0..targets.len() {
        let target = &targets[k];
        let base = base_at(bases, k);
        bind(known, &target.name, base)?;
        let fits = may_match(base_of(known, &target.name), base);
        first = earlier(first, unless(fits, CheckCode::C4, target.site));
    }
    Ok(first)
}

// The base at a place, where it is there.
fn base_at(bases: &[Option<Base>], place: usize) -> Option<Base>
    ensures { result ≡ base_behind place bases.now }
{
    match bases.get(place) {
        Some(base) => *base,
        None => None,
    }
}

/// Binds index names, and checks that each is int.
pub fn bind_index_names<'a>(
    targets: &'a [Target],
    known: &mut IndexMap<&'a str, Option<Base>>,
) -> Result<Option<Violation>, Memory>
    ensures first { IfOk result (λ r. r ≡ (in_index_names targets.now (entered known.old)).first) }
    ensures known { OnOk result (entered known.new ≡ (in_index_names targets.now (entered known.old)).known) }
{
    let mut first = None;
    for target in targets {
        bind(known, &target.name, Some(Base::Int))?;
        let fits = may_be(Base::Int, base_of(known, &target.name));
        first = earlier(first, unless(fits, CheckCode::C4, target.site));
    }
    Ok(first)
}

/// Binds the names of targets on the path.
pub fn push_targets<'a>(targets: &'a [Target], bound: &mut Bound<'a>) -> Result<(), Memory>
    ensures names { OnOk result (among bound.new.trail.items ≡ with_names (target_names targets.now) (among bound.old.trail.items)) }
    ensures kept { OnOk result (take (length bound.old.trail.items) bound.new.trail.items ≡ bound.old.trail.items) }
{
    for target in targets {
        bound.push(target.name.as_str())?;
    }
    Ok(())
}

/// Binds the names of parameters on the path.
pub fn push_params<'a>(params: &'a [Param], bound: &mut Bound<'a>) -> Result<(), Memory>
    ensures { OnOk result (among bound.new.trail.items ≡ with_names (param_names params.now) (among bound.old.trail.items)) }
{
    for param in params {
        bound.push(param.name.as_str())?;
    }
    Ok(())
}

/// Binds parameters to values of their types' bases.
pub fn bind_params<'a>(
    params: &'a [Param],
    known: &mut IndexMap<&'a str, Option<Base>>,
) -> Result<(), Memory>
    ensures { OnOk result (entered known.new ≡ known_params params.now (entered known.old)) }
{
    for param in params {
        bind(known, &param.name, Some(param.ty.base))?;
    }
    Ok(())
}

/// The targets of an index, which are one or several.
pub fn index_parts(index: &Index) -> &[Target]
    ensures { result.now ≡ index_targets (View.index_view index.now) }
{
    match index {
        Index::Named(target) => std::slice::from_ref(target),
        Index::Parts(targets) => targets,
    }
}

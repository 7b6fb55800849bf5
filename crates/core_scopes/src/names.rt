//! The names that statements bind.

ghost use Rattle.std.specs.Prelude.{◌≡◌, ◌++◌, [], IfOk, OnOk};
ghost use Rattle.sac_ast.specs.View.{block, stmt};
ghost use Rattle.source_meaning.specs.Meaning.{names as target_names};
ghost use Rattle.core_lowering.specs.Lowering.{bound_names, names_bound, once as once_value};
ghost use Rattle.core_lowering.specs.steps.Building.{bound_in, bound_in_both};
ghost use Rattle.core_scopes.specs.Looks.{look, texts};

use crate::scope::Scope;
use indexmap::IndexSet;
use sac_ast::{Statement, Target};
use sac_base::Memory;
use std::alloc::Global;

/// The names of targets.
pub fn names_of<'a>(alloc: Global, targets: &'a [Target]) -> Result<Vec<&'a str>, Memory>
    ensures { IfOk result (λ v. texts v.items ≡ target_names targets.now) }
{
    let mut names = Vec::new(alloc);
    add_targets(targets, &mut names)?;
    Ok(names)
}

fn add_targets<'a>(targets: &'a [Target], names: &mut Vec<&'a str>) -> Result<(), Memory>
    ensures { OnOk result (texts names.new.items ≡ texts names.old.items ++ target_names targets.now) }
{
    for target in targets {
        names.push(target.name.as_str())?;
    }
    Ok(())
}

/// Adds the names that a block binds, in order.
#[cycle(names)]
pub fn add_block<'a>(ss: &'a [Statement], names: &mut Vec<&'a str>) -> Result<(), Memory>
    ensures { OnOk result (texts names.new.items ≡ texts names.old.items ++ names_bound (block ss.now)) }
{
    for s in ss {
        add_statement(s, names)?;
    }
    Ok(())
}

#[cycle(names)]
fn add_statement<'a>(s: &'a Statement, names: &mut Vec<&'a str>) -> Result<(), Memory>
    ensures { OnOk result (texts names.new.items ≡ texts names.old.items ++ bound_names (stmt s.now)) }
{
    match s {
        Statement::Assign { targets, .. } => add_targets(targets, names),
        Statement::Replace { target, .. } => {
            names.push(target.name.as_str())?;
            Ok(())
        }
        Statement::If { yes, no, .. } => {
            add_block(yes, names)?;
            add_block(no, names)
        }
        Statement::While { body, .. } => add_block(body, names),
        Statement::Do { body, .. } => add_block(body, names),
    }
}

/// The names of a list, each once.
pub fn once<'a>(alloc: Global, names: &[&'a str]) -> Result<Vec<&'a str>, Memory>
    ensures { IfOk result (λ v. texts v.items ≡ once_value [] (texts names.now)) }
{
    let mut met = IndexSet::new(alloc);
    let mut kept = Vec::new(alloc);
    for name in names {
        if met.insert(*name)? {
            kept.push(*name)?;
        }
    }
    Ok(kept)
}

/// The names that a block binds, each once.
pub fn once_bound<'a>(alloc: Global, ss: &'a [Statement]) -> Result<Vec<&'a str>, Memory>
    ensures { IfOk result (λ v. texts v.items ≡ once_value [] (names_bound (block ss.now))) }
{
    let mut names = Vec::new(alloc);
    add_block(ss, &mut names)?;
    once(alloc, &names)
}

/// The names that either of two blocks binds, each once.
pub fn once_bound_in_either<'a>(
    alloc: Global,
    first: &'a [Statement],
    second: &'a [Statement],
) -> Result<Vec<&'a str>, Memory>
    ensures { IfOk result (λ v. texts v.items ≡ once_value [] (names_bound (block first.now) ++ names_bound (block second.now))) }
{
    let mut names = Vec::new(alloc);
    add_block(first, &mut names)?;
    add_block(second, &mut names)?;
    once(alloc, &names)
}

/// The names that have a variable.
pub fn known<'a>(
    alloc: Global,
    names: &[&'a str],
    scope: &Scope<'_>,
) -> Result<Vec<&'a str>, Memory>
    ensures { IfOk result (λ v. texts v.items ≡ bound_in (look scope.now) (texts names.now)) }
{
    let mut known = Vec::new(alloc);
    for name in names {
        if scope.find(name).is_some() {
            known.push(*name)?;
        }
    }
    Ok(known)
}

/// The names that have a variable in both scopes.
pub fn known_in_both<'a>(
    alloc: Global,
    names: &[&'a str],
    first: &Scope<'_>,
    second: &Scope<'_>,
) -> Result<Vec<&'a str>, Memory>
    ensures { IfOk result (λ v. texts v.items ≡ bound_in_both (look first.now) (look second.now) (texts names.now)) }
{
    let mut known = Vec::new(alloc);
    for name in names {
        if first.find(name).is_some() && second.find(name).is_some() {
            known.push(*name)?;
        }
    }
    Ok(known)
}

//! The rules of calls.

ghost use Rattle.std.specs.Prelude.{◌≡◌, ◌||◌, not, length, map, option_map, is_some, IfOk, Some};
ghost use Rattle.sac_base.specs.declared.types.ArrayType.{ArrayType as ArrayTypeTree};
ghost use Rattle.check_rules.specs.Accepted.{numbers_fit as numbers_fit_of, some_takes as some_takes_of, is_inline as is_inline_of, is_named};
ghost use Rattle.check_rules.specs.Groups.{is_below, last_place};
ghost use Rattle.sac_ast.specs.Bases;
ghost use Rattle.sac_ast.specs.View;
ghost use Rattle.check_rules.specs.Walk.{call_rules as call_rules_of, call_first, call_bases};
ghost use Rattle.check_rules.specs.Places.{place};

use crate::code::CheckCode;
use crate::functions::Functions;
use crate::judged::JudgedAll;
use crate::violation::{Violation, earlier, unless};
use indexmap::IndexSet;
use sac_ast::Function;
use sac_base::{ArrayType, Base, Memory, Name, Site};
use std::alloc::Global;

/// Where a phrase stands: the functions of the program, the place of its own among them, whether that is inline, and the names that are bound anywhere in it.
#[derive(Drop)]
pub struct Place<'a> {
    pub functions: &'a Functions<'a>,
    pub at: usize,
    pub inline: bool,
    pub listed: IndexSet<&'a str>,
    pub alloc: Global,
}

/// The rules of one call that has to give so many results.
pub fn call_rules(
    here: &Place<'_>,
    name: &Name,
    args: &[Option<Base>],
    results: usize,
    site: Site,
) -> Option<Violation>
    ensures { result ≡ call_rules_of (place here.now) name.now args.now results site }
{
    let first = here.functions.first_named(name);
    let there = unless(is_there(first), CheckCode::C2, site);
    let numbers = unless(numbers_fit(first, args.len(), results), CheckCode::C3, site);
    let bases = unless(are_taken(here, first, name, args), CheckCode::C4, site);
    let order = unless(stands_earlier(here, first, name), CheckCode::C8, site);
    earlier(earlier(earlier(there, numbers), bases), order)
}

fn is_there(first: Option<&Function>) -> bool
    ensures { result ≡ is_some (option_map (λ g. View.function g.now) first.entry) }
{
    match first {
        None => false,
        Some(_) => true,
    }
}

// A call has the numbers of arguments and results of the first instance of its name.
fn numbers_fit(first: Option<&Function>, args: usize, results: usize) -> bool
    ensures { result ≡ numbers_fit_of (option_map (λ g. View.function g.now) first.entry) args results }
{
    match first {
        None => true,
        Some(g) => g.params.len() == args && g.results.len() == results,
    }
}

// Where the name has an instance and no base is missing, an instance takes the arguments.
fn are_taken(
    here: &Place<'_>,
    first: Option<&Function>,
    name: &Name,
    bases: &[Option<Base>],
) -> bool
    ensures { result ≡ (not (is_some (option_map (λ g. View.function g.now) first.entry))
        || some_takes_of (View.functions here.now.functions.now.all.now) name.now (Bases.all_known bases.now)) }
{
    !is_there(first) || some_takes(here.functions, name, bases)
}

fn some_takes(functions: &Functions<'_>, name: &Name, bases: &[Option<Base>]) -> bool
    ensures { result ≡ some_takes_of (View.functions functions.now.all.now) name.now (Bases.all_known bases.now) }
{
    lacks_base(bases) || is_there(functions.instance(name, bases))
}

fn lacks_base(bases: &[Option<Base>]) -> bool
    ensures { result ≡ not (is_some (Bases.all_known bases.now)) }
{
    for base in bases {
        if base.is_none() {
            return true;
        }
    }
    false
}

// An inline function calls an inline name only where each instance of it stands earlier in the file.
fn stands_earlier(here: &Place<'_>, first: Option<&Function>, name: &Name) -> bool
    ensures { result ≡ (not here.now.inline || not (is_inline_of (option_map (λ g. View.function g.now) first.entry))
        || is_below (last_place (is_named name.now) (View.functions here.now.functions.now.all.now)) here.now.at) }
{
    !here.inline || !is_inline(first) || here.functions.are_before(name, here.at)
}

fn is_inline(first: Option<&Function>) -> bool
    ensures { result ≡ is_inline_of (option_map (λ g. View.function g.now) first.entry) }
{
    match first {
        None => false,
        Some(g) => g.inline,
    }
}

/// The bases of a call's results, where it violates no rule and an instance takes the arguments.
pub fn call_results(
    here: &Place<'_>,
    name: &Name,
    args: &JudgedAll,
    results: usize,
    site: Site,
) -> Result<JudgedAll, Memory>
    ensures first { IfOk result (λ r. r.first ≡ call_first (place here.now) name.now args.now.first args.now.bases.items results site) }
    ensures bases { IfOk result (λ r. r.bases.items ≡ call_bases (place here.now) name.now args.now.first args.now.bases.items results site) }
{
    let own = call_rules(here, name, &args.bases, results, site);
    let first = earlier(own, args.first);
    let found = if first.is_none() {
        here.functions.instance(name, &args.bases)
    } else {
        None
    };
    let bases = result_bases(here.alloc, found)?;
    Ok(JudgedAll { first, bases })
}

// The bases of the results of a function, where there is one.
fn result_bases(alloc: Global, f: Option<&Function>) -> Result<Vec<Option<Base>>, Memory>
    ensures { IfOk result (λ bs. bs.items ≡ Bases.known_bases (Bases.bases_of_results (option_map (λ f. View.function f.now) f.entry))) }
{
    match f {
        None => Ok(Vec::new(alloc)),
        Some(f) => bases_of_types(alloc, &f.results),
    }
}

fn bases_of_types(alloc: Global, types: &[ArrayType]) -> Result<Vec<Option<Base>>, Memory>
    ensures { IfOk result (λ bs. bs.items ≡ Bases.known_bases (Some (map (λ (ty : ArrayTypeTree). ty.base) types.now))) }
{
    let mut bases = Vec::new(alloc);
    for ty in types {
        bases.push(Some(ty.base))?;
    }
    Ok(bases)
}

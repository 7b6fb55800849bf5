//! The functions of a program, found by name.

ghost use Rattle.std.specs.Prelude.{◌≡◌, option_map, map, find, drop, IfOk, OnOk};
ghost use Rattle.std.proofs.Props.{props};
ghost use Rattle.sac_ast.specs.Bases;
ghost use Rattle.sac_ast.specs.View;
ghost use Rattle.sac_ast.specs.declared.Param.{Param as ParamTree};
ghost use Rattle.check_rules.specs.Groups.{IsFirst, IsLast, is_known as is_known_value, has_each, takes_beside, first_place as first_place_of};
ghost use Rattle.check_rules.specs.Groups.{last_place, is_below, with_first, with_last};
ghost use Rattle.check_rules.specs.Tables.{place_of};
ghost use Rattle.check_rules.specs.Accepted.{is_named};

use indexmap::IndexMap;
use sac_ast::{Function, Param};
use sac_base::{Base, Memory, Name, same_name};
use std::alloc::Global;

/// The functions of a program, with the places of the first and the last instance of each name.
#[derive(Drop)]
pub struct Functions<'a> {
    pub all: &'a [Function],
    firsts: IndexMap<&'a str, usize>,
    lasts: IndexMap<&'a str, usize>,
    ghost first: { IsFirst all.now firsts } by { Prim.hlevel props },
    ghost last: { IsLast all.now lasts } by { Prim.hlevel props },
}

impl<'a> Functions<'a> {
    pub fn new(alloc: Global, all: &'a [Function]) -> Result<Self, Memory>
        ensures { IfOk result (λ functions. functions.all.now ≡ all.now) }
    {
        let mut firsts = IndexMap::new(alloc);
        let mut lasts = IndexMap::new(alloc);
        for k in 0..all.len() {
            note_first(&mut firsts, &all[k].name, k)?;
            note_last(&mut lasts, &all[k].name, k)?;
        }
        Ok(Functions { all, firsts, lasts })
    }

    /// The first instance of a name.
    pub fn first_named(&self, name: &Name) -> Option<&'a Function>
        ensures { option_map (λ f. View.function f.now) result ≡ Bases.first_named (View.functions self.now.all.now) name.now }
    {
        match self.firsts.get(name.as_str()) {
            None => None,
            Some(place) => self.all.get(*place),
        }
    }

    /// The place of the first instance of a name.
    pub fn first_place(&self, name: &Name) -> Option<usize>
        ensures { result ≡ first_place_of (is_named name.now) (View.functions self.now.all.now) }
    {
        match self.firsts.get(name.as_str()) {
            None => None,
            Some(place) => Some(*place),
        }
    }

    /// Whether each instance of a name stands before a place.
    pub fn are_before(&self, name: &Name, place: usize) -> bool
        ensures { result ≡ is_below (last_place (is_named name.now) (View.functions self.now.all.now)) place }
    {
        match self.lasts.get(name.as_str()) {
            None => true,
            Some(last) => *last < place,
        }
    }

    /// The first instance of a name that takes these bases, none of which is missing.
    pub fn instance(&self, name: &Name, bases: &[Option<Base>]) -> Option<&'a Function>
        ensures { option_map (λ f. View.function f.now) result ≡ Bases.instance_by (View.functions self.now.all.now) name.now (Bases.all_known bases.now) }
    {
        match self.firsts.get(name.as_str()) {
            None => None,
            Some(place) => first_taking(self.all, *place, self.first_named(name), name, bases),
        }
    }
}

fn note_first<'a>(
    places: &mut IndexMap<&'a str, usize>,
    name: &'a Name,
    place: usize,
) -> Result<(), Memory>
    ensures { OnOk result (place_of places.new ≡ with_first name.now place (place_of places.old)) }
{
    let text = name.as_str();
    if places.get(text).is_none() {
        places.insert(text, place)?;
    }
    Ok(())
}

fn note_last<'a>(
    places: &mut IndexMap<&'a str, usize>,
    name: &'a Name,
    place: usize,
) -> Result<(), Memory>
    ensures { OnOk result (place_of places.new ≡ with_last name.now place (place_of places.old)) }
{
    places.insert(name.as_str(), place)?;
    Ok(())
}

// The first function from a place on that takes the bases, beside the first instance of its name.
fn first_taking<'a>(
    functions: &'a [Function],
    from: usize,
    first: Option<&Function>,
    name: &Name,
    bases: &[Option<Base>],
) -> Option<&'a Function>
    ensures { option_map (λ f. View.function f.now) result
        ≡ find (takes_beside (option_map (λ f. View.function f.now) first.entry) name.now bases.now) (View.functions (drop from functions.now)) }
{
    for k in from..functions.len() {
        if takes_bases(&functions[k], first, name, bases) {
            return Some(&functions[k]);
        }
    }
    None
}

fn takes_bases(f: &Function, first: Option<&Function>, name: &Name, bases: &[Option<Base>]) -> bool
    ensures { result ≡ takes_beside (option_map (λ g. View.function g.now) first.entry) name.now bases.now (View.function f.now) }
{
    same_name(&f.name, name) && counts_beside(first, f) && takes(&f.params, bases)
}

// An instance counts where it has as many parameters and results as the first of its name.
fn counts_beside(first: Option<&Function>, f: &Function) -> bool
    ensures { result ≡ Bases.counts_beside (option_map (λ g. View.function g.now) first.entry) (View.function f.now) }
{
    match first {
        None => false,
        Some(g) => f.params.len() == g.params.len() && f.results.len() == g.results.len(),
    }
}

// Whether parameters have these bases, and none is missing.
fn takes(params: &[Param], bases: &[Option<Base>]) -> bool
    ensures { result ≡ has_each (map (λ (p : ParamTree). p.ty.base) params.now) bases.now }
{
    if params.len() != bases.len() {
        return false;
    }
    for k in 0..params.len() {
        if !is_known(params[k].ty.base, bases[k]) {
            return false;
        }
    }
    true
}

fn is_known(wanted: Base, base: Option<Base>) -> bool
    ensures { result ≡ is_known_value wanted base }
{
    match base {
        None => false,
        Some(b) => wanted == b,
    }
}

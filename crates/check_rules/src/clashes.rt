//! Which instances of a name may stand together.

ghost use Rattle.std.specs.Prelude.{◌≡◌, ◌≤◌, map, filter, take, drop, length};
ghost use Rattle.sac_base.specs.Types.{overlap as types_overlap, apart as types_apart, all_below as types_below, compatible as types_compatible};
ghost use Rattle.sac_base.specs.Types.{strictly_below as is_strictly_below};
ghost use Rattle.sac_ast.specs.Bases.{same_bases};
ghost use Rattle.sac_ast.specs.declared.Param.{Param as ParamTree};
ghost use Rattle.sac_ast.specs.View;
ghost use Rattle.check_rules.specs.Accepted.{may_stand_together as may_stand, same_truth, base_list, is_named};
ghost use Rattle.check_rules.specs.Programs.{stands_with, named_stands, have_same_numbers, have_same_form, bases_agree};

use crate::functions::Functions;
use sac_ast::{Function, Param};
use sac_base::{ArrayType, Name, same_name};
use shape_types::{below, meet};

/// Whether a function may stand beside each earlier instance of its name, where those before a place are earlier.
pub fn stands_beside(functions: &Functions<'_>, f: &Function, at: usize) -> bool
    requires { at ≤ length functions.now.all.now }
    ensures { result ≡ stands_with (View.function f.now) (View.functions (take at functions.now.all.now)) }
{
    let first = first_before(functions, &f.name, at);
    for k in first..at {
        if !stands_if_named(f, &functions.all[k]) {
            return false;
        }
    }
    true
}

// A place before which no function has the name, where only those before another place are looked at.
fn first_before(functions: &Functions<'_>, name: &Name, at: usize) -> usize
    requires { at ≤ length functions.now.all.now }
    ensures { filter (is_named name.now) (View.functions (drop result (take at functions.now.all.now)))
        ≡ filter (is_named name.now) (View.functions (take at functions.now.all.now)) }
{
    match functions.first_place(name) {
        None => at,
        Some(place) => place,
    }
}

fn stands_if_named(f: &Function, g: &Function) -> bool
    ensures { result ≡ named_stands (View.function f.now) (View.function g.now) }
{
    !same_name(&g.name, &f.name) || may_stand_together(f, g)
}

// Two instances have the same numbers of parameters and results, are both inline or neither, have types that may stand together, and equal bases of
// results where those of the parameters are equal.
fn may_stand_together(g: &Function, h: &Function) -> bool
    ensures { result ≡ may_stand (View.function g.now) (View.function h.now) }
{
    same_form(g, h) && compatible(&g.params, &h.params) && agree_on_bases(g, h)
}

fn same_form(g: &Function, h: &Function) -> bool
    ensures { result ≡ have_same_form (View.function g.now) (View.function h.now) }
{
    same_numbers(g, h) && same_inline(g.inline, h.inline)
}

fn same_numbers(g: &Function, h: &Function) -> bool
    ensures { result ≡ have_same_numbers (View.function g.now) (View.function h.now) }
{
    g.params.len() == h.params.len() && g.results.len() == h.results.len()
}

fn agree_on_bases(g: &Function, h: &Function) -> bool
    ensures { result ≡ bases_agree (View.function g.now) (View.function h.now) }
{
    !same_param_bases(&g.params, &h.params) || same_type_bases(&g.results, &h.results)
}

fn same_inline(a: bool, b: bool) -> bool
    ensures { result ≡ same_truth a b }
{
    if a { b } else { !b }
}

fn overlap(a: &ArrayType, b: &ArrayType) -> bool
    ensures { result ≡ types_overlap a.now b.now }
{
    meet(a, b).is_some()
}

// At some position the types have no array in common.
fn apart(a: &[Param], b: &[Param]) -> bool
    ensures { result ≡ types_apart (map (λ (p : ParamTree). p.ty) a.now) (map (λ (p : ParamTree). p.ty) b.now) }
{
    let count = a.len().min(b.len());
    for k in 0..count {
        if !overlap(&a[k].ty, &b[k].ty) {
            return true;
        }
    }
    false
}

fn all_below(a: &[Param], b: &[Param]) -> bool
    ensures { result ≡ types_below (map (λ (p : ParamTree). p.ty) a.now) (map (λ (p : ParamTree). p.ty) b.now) }
{
    if a.len() != b.len() {
        return false;
    }
    for k in 0..a.len() {
        if !below(&a[k].ty, &b[k].ty) {
            return false;
        }
    }
    true
}

fn compatible(a: &[Param], b: &[Param]) -> bool
    ensures { result ≡ types_compatible (map (λ (p : ParamTree). p.ty) a.now) (map (λ (p : ParamTree). p.ty) b.now) }
{
    apart(a, b) || strictly_below(a, b) || strictly_below(b, a)
}

fn strictly_below(a: &[Param], b: &[Param]) -> bool
    ensures { result ≡ is_strictly_below (map (λ (p : ParamTree). p.ty) a.now) (map (λ (p : ParamTree). p.ty) b.now) }
{
    all_below(a, b) && !all_below(b, a)
}

fn same_param_bases(a: &[Param], b: &[Param]) -> bool
    ensures { result ≡ same_bases (map (λ (p : ParamTree). p.ty.base) a.now) (map (λ (p : ParamTree). p.ty.base) b.now) }
{
    if a.len() != b.len() {
        return false;
    }
    for k in 0..a.len() {
        if a[k].ty.base != b[k].ty.base {
            return false;
        }
    }
    true
}

fn same_type_bases(a: &[ArrayType], b: &[ArrayType]) -> bool
    ensures { result ≡ same_bases (base_list a.now) (base_list b.now) }
{
    if a.len() != b.len() {
        return false;
    }
    for k in 0..a.len() {
        if a[k].base != b[k].base {
            return false;
        }
    }
    true
}

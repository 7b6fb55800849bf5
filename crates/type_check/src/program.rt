//! The test of a whole program.

ghost use Rattle.std.specs.Prelude.{◌≡◌, ◌≤◌, [], map, take, length, IfOk, IfErr};
ghost use Rattle.sac_ast.specs.declared.Param.{Param as ParamTree};
ghost use Rattle.sac_ast.specs.View;
ghost use Rattle.check_rules.specs.Accepted.{IsAccepted, values_fit as are_fit};
ghost use Rattle.check_rules.specs.First.{earlier as earlier_of};
ghost use Rattle.check_rules.specs.Programs.{in_functions as functions_first, in_program as program_first, main_counted, mains, inline_main};
ghost use Rattle.check_rules.specs.Programs.{inline_mains, main_bases as main_bases_of, one_function, ended_first, is_main_named};
ghost use Rattle.check_rules.specs.Walk.{in_function as function_first};
ghost use Rattle.check_rules.specs.Accepted.{with_names, param_names, no_names, none_known, known_params as known_params_of};
ghost use Rattle.check_rules.specs.Places.{place};
ghost use Rattle.check_rules.specs.Tables.{among, entered};
ghost use Rattle.type_check.specs.Inside.{found_inside};
ghost use Rattle.type_check.specs.Refusals.{IsRefusal};

use crate::checked::Checked;
use check_rules::bound::Bound;
use check_rules::calls::Place;
use check_rules::clashes::stands_beside;
use check_rules::code::CheckCode;
use check_rules::functions::Functions;
use check_rules::judged::JudgedAll;
use check_rules::listing::listed;
use check_rules::targets::{bind_params, push_params, repeated_params};
use check_rules::violation::{Violation, earlier, unless};
use check_walk::{block, expressions};
use indexmap::IndexMap;
use sac_ast::{Function, Param, Program, may_be};
use sac_base::{ArrayType, Base, Memory, Site};
use std::alloc::Global;
use thiserror::Error;

type Known<'a> = IndexMap<&'a str, Option<Base>>;

/// Why a program is not accepted.
#[derive(Clone, Copy, Debug, PartialEq, Eq, Error)]
pub enum CheckError {
    /// A rule is violated at a site: the first site in the text, and at that site the least rule.
    #[error("refused {0:?} at {1:?}")]
    Refused(CheckCode, Site),
    #[error("out of memory")]
    Memory,
}

/// Tests whether a program is accepted: no rule is violated.
///
/// It is refused with the first site at which a rule is violated, and at that site with the least rule.
pub fn check(alloc: Global, program: Program) -> Result<Checked, CheckError>
    ensures accepted { IfOk result (λ checked. IsAccepted (View.program checked.program)) }
    ensures program { IfOk result (λ checked. checked.program ≡ program) }
    ensures bases { IfOk result (λ checked. checked.main_bases.items ≡ main_bases_of (View.program program)) }
    ensures refused { IfErr result (λ error. IsRefusal (View.program program) error) }
{
    let first = match first_violation(&program, alloc) {
        Ok(first) => first,
        Err(_) => return Err(CheckError::Memory),
    };
    if let Some(violation) = first {
        return Err(CheckError::Refused(violation.code, violation.site));
    }
    match main_bases(&program, alloc) {
        Ok(main_bases) => Ok(Checked {
            program,
            main_bases,
        }),
        Err(_) => Err(CheckError::Memory),
    }
}

// The earliest violation in a program.
fn first_violation(program: &Program, alloc: Global) -> Result<Option<Violation>, Memory>
    ensures { IfOk result (λ r. r ≡ program_first (View.program program.now)) }
{
    let functions = Functions::new(alloc, &program.functions)?;
    let inside = all_functions(&functions, alloc)?;
    let count = count_mains(&program.functions, program.end);
    let inline = check_inline(&program.functions);
    Ok(earlier(inside, earlier(count, inline)))
}

fn all_functions(functions: &Functions<'_>, alloc: Global) -> Result<Option<Violation>, Memory>
    ensures { IfOk result (λ r. r ≡ functions_first (View.functions functions.now.all.now) [] (View.functions functions.now.all.now)) }
{
    let mut first = None;
    for at in 0..functions.all.len() {
        let one = function(functions, &functions.all[at], at, alloc)?;
        first = earlier(first, one);
    }
    Ok(first)
}

// The earliest violation in a function, or its clash with an earlier one, where those before a place are earlier.
fn function(
    functions: &Functions<'_>,
    f: &Function,
    at: usize,
    alloc: Global,
) -> Result<Option<Violation>, Memory>
    requires { at ≤ length functions.now.all.now }
    ensures { IfOk result (λ r. r ≡ one_function (View.functions functions.now.all.now)
        (View.functions (take at functions.now.all.now)) (View.function f.now)) }
{
    let clash = unless(stands_beside(functions, f, at), CheckCode::C6, f.site);
    let inside = inside_function(functions, f, at, alloc)?;
    Ok(earlier(clash, inside))
}

fn inside_function<'a>(
    functions: &'a Functions<'a>,
    f: &'a Function,
    at: usize,
    alloc: Global,
) -> Result<Option<Violation>, Memory>
    ensures { IfOk result (λ r. r ≡ function_first (View.functions functions.now.all.now)
        (View.functions (take at functions.now.all.now)) (View.function f.now)) }
{
    let twice = repeated_params(&f.params, alloc)?;
    let here = Place {
        functions,
        at,
        inline: f.inline,
        listed: listed(f, alloc)?,
        alloc,
    };
    in_place(twice, f, &here)
}

// The walk over a function at its place, behind its parameters.
fn in_place<'a>(
    twice: Option<Violation>,
    f: &'a Function,
    here: &Place<'a>,
) -> Result<Option<Violation>, Memory>
    ensures { IfOk result (λ r. r ≡ found_inside twice (place here.now) (View.function f.now)
        (with_names (param_names f.now.params.items) no_names) (known_params_of f.now.params.items none_known)) }
{
    let mut bound = bound_params(&f.params, here.alloc)?;
    let mut known = known_params(&f.params, here.alloc)?;
    behind_params(twice, f, here, &mut bound, &mut known)
}

// The names of parameters.
fn bound_params(params: &[Param], alloc: Global) -> Result<Bound<'_>, Memory>
    ensures { IfOk result (λ bound. among bound.trail.items ≡ with_names (param_names params.now) no_names) }
{
    let mut bound = Bound::new(alloc);
    push_params(params, &mut bound)?;
    Ok(bound)
}

// What the names of parameters are bound to.
fn known_params(params: &[Param], alloc: Global) -> Result<Known<'_>, Memory>
    ensures { IfOk result (λ known. entered known ≡ known_params_of params.now none_known) }
{
    let mut known = IndexMap::new(alloc);
    bind_params(params, &mut known)?;
    Ok(known)
}

fn behind_params<'a>(
    twice: Option<Violation>,
    f: &'a Function,
    here: &Place<'a>,
    bound: &mut Bound<'a>,
    known: &mut Known<'a>,
) -> Result<Option<Violation>, Memory>
    ensures { IfOk result (λ r. r
        ≡ found_inside twice (place here.now) (View.function f.now) (among bound.old.trail.items) (entered known.old)) }
{
    let body = block(&f.body, here, bound, known)?;
    let values = expressions(&f.values, here, bound, known)?;
    Ok(ended(twice, body, &values, f))
}

// A function by its parts: it returns as many values as it has results, of their bases.
fn ended(
    twice: Option<Violation>,
    body: Option<Violation>,
    values: &JudgedAll,
    f: &Function,
) -> Option<Violation>
    ensures { result ≡ ended_first twice body values.now.first values.now.bases.items (View.function f.now) }
{
    let count = unless(values.bases.len() == f.results.len(), CheckCode::C3, f.ends);
    let fits = unless(values_fit(&values.bases, &f.results), CheckCode::C4, f.ends);
    let inside = earlier(earlier(twice, body), values.first);
    earlier(earlier(inside, count), fits)
}

// Values have their results' bases, as far as there are both.
fn values_fit(bases: &[Option<Base>], types: &[ArrayType]) -> bool
    ensures { result ≡ are_fit bases.now types.now }
{
    let count = bases.len().min(types.len());
    for k in 0..count {
        if !may_be(types[k].base, bases[k]) {
            return false;
        }
    }
    true
}

fn is_main(f: &Function) -> bool
    ensures { result ≡ is_main_named (View.function f.now) }
{
    f.name.as_str() == "main"
}

// There is one `main`.
fn count_mains(functions: &[Function], end: Site) -> Option<Violation>
    ensures { result ≡ main_counted (mains (View.functions functions.now)) end }
{
    let mut seen = false;
    for f in functions {
        if is_main(f) {
            if seen {
                return unless(false, CheckCode::C7, f.site);
            }
            seen = true;
        }
    }
    unless(seen, CheckCode::C7, end)
}

// No `main` is inline.
fn check_inline(functions: &[Function]) -> Option<Violation>
    ensures { result ≡ inline_mains (mains (View.functions functions.now)) }
{
    let mut first = None;
    for f in functions {
        first = earlier(first, check_main(f));
    }
    first
}

fn check_main(f: &Function) -> Option<Violation>
    ensures { result ≡ inline_main (View.function f.now) }
{
    if is_main(f) {
        unless(!f.inline, CheckCode::C8, f.site)
    } else {
        None
    }
}

// The bases of the parameters of the first `main`.
fn main_bases(program: &Program, alloc: Global) -> Result<Vec<Base>, Memory>
    ensures { IfOk result (λ bases. bases.items ≡ main_bases_of (View.program program.now)) }
{
    match program.main() {
        Some(f) => param_bases(&f.params, alloc),
        None => Ok(Vec::new(alloc)),
    }
}

fn param_bases(params: &[Param], alloc: Global) -> Result<Vec<Base>, Memory>
    ensures { IfOk result (λ bases. bases.items ≡ map (λ (p : ParamTree). p.ty.base) params.now) }
{
    let mut bases = Vec::new(alloc);
    for param in params {
        bases.push(param.ty.base)?;
    }
    Ok(bases)
}

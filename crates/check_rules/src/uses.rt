//! The rules of single phrases.

ghost use Rattle.std.specs.Prelude.{◌≡◌};
ghost use Rattle.check_rules.specs.First.{earlier as earlier_of};
ghost use Rattle.check_rules.specs.Places.{place};
ghost use Rattle.check_rules.specs.Tables.{among};
ghost use Rattle.check_rules.specs.Walk.{use_rules as use_rules_of, builtin_rules as builtin_rules_of, cell_rules as cell_rules_of};
ghost use Rattle.check_rules.specs.Walk.{cell_rule as cell_rule_of, first_cell as first_cell_of, several_targets as several_targets_of};

use crate::bound::Bound;
use crate::calls::Place;
use crate::code::CheckCode;
use crate::judged::Cell;
use crate::violation::{Violation, earlier, unless};
use sac_ast::{Builtin, Target, first_base, may_be, may_match};
use sac_base::{Base, Name, Site};

/// A used variable is bound in the function, and on every path.
pub fn use_rules(here: &Place<'_>, name: &Name, site: Site, bound: &Bound<'_>) -> Option<Violation>
    ensures { result ≡ use_rules_of (place here.now) name.now site (among bound.now.trail.items) }
{
    let is_listed = here.listed.contains(name.as_str());
    let nowhere = unless(is_listed, CheckCode::C1, site);
    let on_path = !is_listed || bound.contains(name.as_str());
    earlier(nowhere, unless(on_path, CheckCode::C5, site))
}

/// The rule of a built-in function: a new shape is int.
pub fn builtin_rules(builtin: Builtin, bases: &[Option<Base>], site: Site) -> Option<Violation>
    ensures { result ≡ builtin_rules_of builtin bases.now site }
{
    match builtin {
        Builtin::Reshape => unless(may_be(Base::Int, first_base(bases)), CheckCode::C4, site),
        _ => None,
    }
}

/// The base of the first generator's cell, and int without a generator.
pub fn first_cell(cells: &[Cell]) -> Option<Base>
    ensures { result ≡ first_cell_of cells.now }
{
    match cells {
        [] => Some(Base::Int),
        [cell, ..] => cell.base,
    }
}

/// Bounds, steps and widths are int, and cells have the base that is wanted.
pub fn cell_rules(wanted: Option<Base>, cells: &[Cell]) -> Option<Violation>
    ensures { result ≡ cell_rules_of wanted cells.now }
{
    let mut first = None;
    for cell in cells {
        first = earlier(first, cell_rule(wanted, cell));
    }
    first
}

fn cell_rule(wanted: Option<Base>, cell: &Cell) -> Option<Violation>
    ensures { result ≡ cell_rule_of wanted cell.now }
{
    let fits = cell.fits && may_match(wanted, cell.base);
    unless(fits, CheckCode::C4, cell.site)
}

/// A right side of several targets is a call.
pub fn several_targets(targets: &[Target]) -> Option<Violation>
    ensures { result ≡ several_targets_of targets.now }
{
    match targets {
        [first, _, ..] => unless(false, CheckCode::C3, first.site),
        _ => None,
    }
}

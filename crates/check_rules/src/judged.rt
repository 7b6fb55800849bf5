//! What the walk tells of a phrase.

ghost use Rattle.std.specs.Prelude.{◌≡◌};
ghost use Rattle.sac_ast.specs.Bases.{where_holds as base_where_holds};
ghost use Rattle.check_rules.specs.First.{earlier as earlier_of, is_clean as is_without};

use crate::violation::{Violation, earlier};
use sac_base::{Base, Site};

/// A phrase that stands for a value: the earliest violation in it, and its base, which is missing where there is a violation.
#[derive(Clone, Copy)]
pub struct Judged {
    pub first: Option<Violation>,
    pub base: Option<Base>,
}

/// The same of several phrases.
#[derive(Drop)]
pub struct JudgedAll {
    pub first: Option<Violation>,
    pub bases: Vec<Option<Base>>,
}

/// A generator's cell: whether bounds, step and width are int, the base of the cell, and the generator's site.
#[derive(Clone, Copy)]
pub struct Cell {
    pub fits: bool,
    pub base: Option<Base>,
    pub site: Site,
}

/// A generator: the earliest violation in it, and its cell.
#[derive(Clone, Copy)]
pub struct JudgedCell {
    pub first: Option<Violation>,
    pub cell: Cell,
}

/// A generator's bounds, index, step and width: the earliest violation in them, and whether all are int.
#[derive(Clone, Copy)]
pub struct Limits {
    pub first: Option<Violation>,
    pub fits: bool,
}

/// The generators of a with-loop.
#[derive(Drop)]
pub struct JudgedCells {
    pub first: Option<Violation>,
    pub cells: Vec<Cell>,
}

/// A phrase by the violation of its own rules, the earliest in its parts, and the base that it has without any.
pub fn judge(own: Option<Violation>, inside: Option<Violation>, base: Option<Base>) -> Judged
    ensures first { result.first ≡ earlier_of own inside }
    ensures base { result.base ≡ base_where_holds (is_without (earlier_of own inside)) base }
{
    let first = earlier(own, inside);
    Judged {
        first,
        base: if first.is_none() { base } else { None },
    }
}

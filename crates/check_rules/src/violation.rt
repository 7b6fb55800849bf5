//! Violations, and the earliest of them: the first site in the text, and at that site the least code.

ghost use Rattle.std.specs.Prelude.{◌≡◌};
ghost use Rattle.check_rules.specs.Accepted.{code_number};
ghost use Rattle.check_rules.specs.First.{in_order as are_in_order, is_no_later as stands_no_later, earlier as earlier_of, unless as unless_holds};

use crate::code::CheckCode;
use sac_base::Site;

/// A rule that is violated at a site.
#[derive(Clone, Copy, Debug, PartialEq, Eq)]
pub struct Violation {
    pub code: CheckCode,
    pub site: Site,
}

/// A violation, unless the rule holds.
pub fn unless(holds: bool, code: CheckCode, site: Site) -> Option<Violation>
    ensures { result ≡ unless_holds holds code site }
{
    if holds {
        None
    } else {
        Some(Violation { code, site })
    }
}

/// The earlier of two violations, of which each may be missing; the first one where none is earlier.
pub fn earlier(a: Option<Violation>, b: Option<Violation>) -> Option<Violation>
    ensures { result ≡ earlier_of a b }
{
    match (a, b) {
        (None, b) => b,
        (Some(v), None) => Some(v),
        (Some(v), Some(w)) => { if is_no_later(v, w) { Some(v) } else { Some(w) } }
    }
}

fn is_no_later(v: Violation, w: Violation) -> bool
    ensures { result ≡ stands_no_later v w }
{
    if v.site.line != w.site.line {
        v.site.line < w.site.line
    } else if v.site.col != w.site.col {
        v.site.col < w.site.col
    } else {
        number(v.code) <= number(w.code)
    }
}

fn number(code: CheckCode) -> u32
    ensures { result ≡ code_number code }
{
    match code {
        CheckCode::C1 => 1,
        CheckCode::C2 => 2,
        CheckCode::C3 => 3,
        CheckCode::C4 => 4,
        CheckCode::C5 => 5,
        CheckCode::C6 => 6,
        CheckCode::C7 => 7,
        CheckCode::C8 => 8,
        CheckCode::C9 => 9,
        CheckCode::C10 => 10,
    }
}

//! Lists that are equal place by place.

ghost use Rattle.std.specs.Prelude.{◌≡◌, IsTrue};

use core_ir::Var;
use sac_base::{Cell, Grid1};

/// Whether two lists of variables are the same.
pub fn same_vars(a: &[Var], b: &[Var]) -> bool
    ensures { IsTrue result → a.now ≡ b.now }
{
    if a.len() != b.len() {
        return false;
    }
    for i in 0..a.len() {
        if a[i] != b[i] {
            return false;
        }
    }
    true
}

/// Whether two lists of cells are the same.
pub fn same_cells(a: &[Cell], b: &[Cell]) -> bool
    ensures { IsTrue result → a.now ≡ b.now }
{
    if a.len() != b.len() {
        return false;
    }
    for i in 0..a.len() {
        if a[i] != b[i] {
            return false;
        }
    }
    true
}

/// Whether axes are given by the same numbers.
pub fn same_axes(a: &[Grid1], b: &[Grid1]) -> bool
    ensures { IsTrue result → a.now ≡ b.now }
{
    if a.len() != b.len() {
        return false;
    }
    for i in 0..a.len() {
        if !same_axis(&a[i], &b[i]) {
            return false;
        }
    }
    true
}

#[tactic(auto, using(crate::proofs::Axes::same_numbers))]
fn same_axis(a: &Grid1, b: &Grid1) -> bool
    ensures { IsTrue result → a.now ≡ b.now }
{
    a.lo == b.lo && a.hi == b.hi && a.step == b.step && a.width == b.width
}

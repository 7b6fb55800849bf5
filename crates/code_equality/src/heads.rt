//! Generators, parts and parted loops without their blocks.

ghost use Rattle.std.specs.Prelude.{◌≡◌, IsTrue};
ghost use Rattle.counted_code.specs.Pieces.{gen_head, part_head};
ghost use Rattle.counted_code.specs.declared.tree.CodeParted.{out-CodeParted};

use crate::leaves::{same_choice, same_extents};
use crate::lists::{same_axes, same_vars};
use counted_code::{CodeGen, CodePart, CodeParted};

/// Whether two generators are the same but for their bodies.
pub fn same_gen_head(a: &CodeGen, b: &CodeGen) -> bool
    ensures { IsTrue result → gen_head a.now ≡ gen_head b.now }
{
    a.site == b.site && a.index == b.index && same_bounds(a, b) && same_vars(&a.names, &b.names)
}

fn same_bounds(a: &CodeGen, b: &CodeGen) -> bool
    ensures lower { IsTrue result → a.now.lower ≡ b.now.lower }
    ensures lower_closed { IsTrue result → a.now.lower_closed ≡ b.now.lower_closed }
    ensures upper { IsTrue result → a.now.upper ≡ b.now.upper }
    ensures upper_closed { IsTrue result → a.now.upper_closed ≡ b.now.upper_closed }
    ensures step { IsTrue result → a.now.step ≡ b.now.step }
    ensures width { IsTrue result → a.now.width ≡ b.now.width }
{
    same_choice(a.lower, b.lower)
        && a.lower_closed == b.lower_closed
        && same_choice(a.upper, b.upper)
        && a.upper_closed == b.upper_closed
        && same_choice(a.step, b.step)
        && same_choice(a.width, b.width)
}

/// Whether two parts are the same but for their bodies.
pub fn same_part_head(a: &CodePart, b: &CodePart) -> bool
    ensures { IsTrue result → part_head a.now ≡ part_head b.now }
{
    a.site == b.site && a.index == b.index && same_axes(a.grid.axes(), b.grid.axes())
}

/// Whether two parted loops are the same but for their parts.
pub fn same_parted_head(a: &CodeParted, b: &CodeParted) -> bool
    ensures frame { IsTrue result → (out-CodeParted a.now).frame ≡ (out-CodeParted b.now).frame }
    ensures base { IsTrue result → (out-CodeParted a.now).base ≡ (out-CodeParted b.now).base }
    ensures cell { IsTrue result → (out-CodeParted a.now).cell ≡ (out-CodeParted b.now).cell }
    ensures op { IsTrue result → (out-CodeParted a.now).op ≡ (out-CodeParted b.now).op }
    ensures reuse { IsTrue result → (out-CodeParted a.now).reuse ≡ (out-CodeParted b.now).reuse }
{
    a.base == b.base
        && a.op == b.op
        && same_choice(a.reuse, b.reuse)
        && same_extents(&a.cell, &b.cell)
        && same_axes(a.frame.axes(), b.frame.axes())
}

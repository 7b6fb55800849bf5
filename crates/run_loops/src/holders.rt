//! Which generator or part has an index.

ghost use Rattle.std.specs.Prelude.{◌≡◌, option_map};
ghost use Rattle.run_loops.specs.Loops.{held, part_held};

use array_with_loops::Range;
use counted_code::{CodeGen, CodePart};

/// The first generator whose range holds an index.
pub fn holder<'a>(gens: &'a [CodeGen], ranges: &[Range], index: &[i32]) -> Option<&'a CodeGen>
    ensures { option_map (λ g. g.now) result ≡ held gens.now ranges.now index.now }
{
    for k in 0..gens.len().min(ranges.len()) {
        if ranges[k].holds(index) {
            return Some(&gens[k]);
        }
    }
    None
}

/// The first part whose grid contains an index.
pub fn part_holder<'a>(parts: &'a [CodePart], index: &[i32]) -> Option<&'a CodePart>
    ensures { option_map (λ p. p.now) result ≡ part_held parts.now index.now }
{
    for part in parts {
        if part.grid.contains(index) {
            return Some(part);
        }
    }
    None
}

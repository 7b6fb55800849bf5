//! Loops whose cells reach no mark.

ghost use Rattle.std.specs.Prelude.{◌≡◌, IsTrue};
ghost use Rattle.core_facts.specs.calls.Nests.{CallsAllGens, CallsAllParts};
ghost use Rattle.counted_code.specs.Counts.{UnmarkedGens, UnmarkedParts};
ghost use Rattle.counted_code.specs.Terms.{core_of_gens, core_of_parts};
ghost use Rattle.counted_laws.specs.mark_removal.Reached.{IsOne};
ghost use Rattle.counted_code.specs.Pieces.{gens_term, parts_term};
ghost use Rattle.reach_checks.specs.Groups.{clear_in};

use crate::walk::{gens_are_clear, parts_are_clear};
use counted_code::{CodeGen, CodePart};

/// Whether the cells of a with-loop reach no mark: none of its blocks has one, and they call groups alone that the table says are clear.
pub fn cells_are_clear(gens: &[CodeGen], groups: &[bool]) -> bool
    ensures unmarked { IsTrue result → UnmarkedGens (gens_term gens.now) }
    ensures calls { IsTrue result → CallsAllGens (IsOne (clear_in groups.now)) (core_of_gens (gens_term gens.now)) }
    ensures exact { UnmarkedGens (gens_term gens.now) → CallsAllGens (IsOne (clear_in groups.now)) (core_of_gens (gens_term gens.now)) → IsTrue result }
{
    gens_are_clear(gens, groups)
}

/// The same of a parted loop.
pub fn parted_cells_are_clear(parts: &[CodePart], groups: &[bool]) -> bool
    ensures unmarked { IsTrue result → UnmarkedParts (parts_term parts.now) }
    ensures calls { IsTrue result → CallsAllParts (IsOne (clear_in groups.now)) (core_of_parts (parts_term parts.now)) }
    ensures exact { UnmarkedParts (parts_term parts.now) → CallsAllParts (IsOne (clear_in groups.now)) (core_of_parts (parts_term parts.now)) → IsTrue result }
{
    parts_are_clear(parts, groups)
}

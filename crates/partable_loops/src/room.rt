//! Whether there is room for the parts.

ghost use Rattle.std.specs.Prelude.{◌≤◌, ◌+◌, ◌^◌, ◌↔◌, IsTrue, map};
ghost use Rattle.core_ir.specs.Terms.{gens_of};
ghost use Rattle.core_ir.specs.View.{gen_term};
ghost use Rattle.core_loops.specs.Loops.{RoomInGens};

use core_ir::CoreGen;
use core_uses::binders;

/// The most variables in a body.
const FEW: u64 = 65_536;

/// Whether bodies of generators can be copied for parts: numbers of variables are left, and no body binds too many.
pub fn has_room(above: u64, gens: &[CoreGen]) -> bool
    ensures { IsTrue result ↔ ((above ≤ 2 ^ 31 + 1) × RoomInGens (gens_of (map gen_term gens.now))) }
{
    above <= 2_147_483_649 && are_small(gens)
}

fn are_small(gens: &[CoreGen]) -> bool
    ensures { IsTrue result ↔ RoomInGens (gens_of (map gen_term gens.now)) }
{
    for generator in gens {
        if binders(&generator.body) > FEW {
            return false;
        }
    }
    true
}

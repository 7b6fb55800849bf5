//! Whether a body stays small enough where a producer's bodies are put into it.

ghost use Rattle.std.specs.Prelude.{◌≡◌, ◌↔◌, ◌+◌, ◌*◌, ◌<◌, ◌≤◌, ◌^◌, IsTrue, length, map};
ghost use Rattle.core_ir.specs.Counts.{bindings, capped};
ghost use Rattle.core_ir.specs.View.{block_term, part_term};
ghost use Rattle.core_loops.specs.Loops.{binders as bound_number, FEW};
ghost use Rattle.core_loops.specs.Pairs.{most_bindings, most_binders as most_bound};
ghost use Rattle.foldable_pairs.specs.Building.{HasRoom};
ghost use Rattle.foldable_pairs.specs.Parts.{terms};

use core_ir::{Block, CorePart, nodes};
use core_uses::binders;

/// The most bindings in a body.
const MOST_NODES: u64 = 4_096;

/// The most variables in a body.
const MOST_BINDERS: u64 = 65_536;

/// Whether a body, with the largest body of the producer's parts for each of so many selections, has at most 4,096 bindings, and binds at most 65,536
/// variables.
pub fn has_room(body: &Block, selected: usize, parts: &[CorePart]) -> bool
    ensures { IsTrue result ↔ HasRoom (block_term body.now) selected (terms parts.now) }
{
    has_nodes(body, selected, parts) && has_binders(body, selected, parts)
}

fn has_nodes(body: &Block, selected: usize, parts: &[CorePart]) -> bool
    ensures { IsTrue result ↔ (bindings (block_term body.now) + selected * most_bindings (terms parts.now) ≤ 4096) }
{
    is_within(nodes(body), selected, most_nodes(parts), MOST_NODES)
}

fn has_binders(body: &Block, selected: usize, parts: &[CorePart]) -> bool
    ensures { IsTrue result ↔ (bound_number (block_term body.now) + selected * most_bound (terms parts.now) ≤ FEW) }
{
    is_within(binders(body), selected, most_binders(parts), MOST_BINDERS)
}

/// Whether a number, and another so many times, is at most a limit.
fn is_within(own: u64, times: usize, each: u64, limit: u64) -> bool
    ensures { IsTrue result ↔ (own + times * each ≤ limit) }
{
    match (times as u64).checked_mul(each) {
        Some(more) => match own.checked_add(more) {
            Some(all) => all <= limit,
            None => false,
        },
        None => false,
    }
}

/// The number of bindings of the largest body.
fn most_nodes(parts: &[CorePart]) -> u64
    ensures { result ≡ capped (most_bindings (terms parts.now)) }
{
    let mut most = 0u64;
    for part in parts {
        most = most.max(nodes_of_part(part));
    }
    most
}

/// The number of variables that the body with the most of them binds.
fn most_binders(parts: &[CorePart]) -> u64
    ensures { result ≡ capped (most_bound (terms parts.now)) }
{
    let mut most = 0u64;
    for part in parts {
        most = most.max(binders_of_part(part));
    }
    most
}

fn nodes_of_part(part: &CorePart) -> u64
    ensures { result ≡ capped (bindings (part_term part.now).body) }
{
    nodes(&part.body)
}

fn binders_of_part(part: &CorePart) -> u64
    ensures { result ≡ capped (bound_number (part_term part.now).body) }
{
    binders(&part.body)
}

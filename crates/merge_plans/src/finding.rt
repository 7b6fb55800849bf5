//! The first parted loop of a body, and the bindings around it.

ghost use Rattle.std.specs.Prelude.{◌≡◌, option_map};
ghost use Rattle.core_ir.specs.View.{block_term};
ghost use Rattle.merge_plans.specs.Openings.{nest_term, opened};

use core_ir::{Block, Let, PartedLoop, Right, Var};
use sac_base::Site;

/// A parted loop in a block, and what stands around it.
#[derive(Clone, Copy)]
pub struct Nest<'a> {
    /// The bindings before it.
    pub before: &'a [Let],
    /// The variables that it is bound to.
    pub targets: &'a [Var],
    pub site: Site,
    pub inner: &'a PartedLoop,
    /// The bindings after it.
    pub after: &'a [Let],
    /// The results of the block.
    pub results: &'a [Var],
}

/// The first parted loop of a body, if it has one. Loops in blocks inside of the body do not count.
pub fn nest_of(body: &Block) -> Option<Nest<'_>>
    ensures { option_map nest_term result ≡ opened (block_term body.now) }
{
    let lets = body.lets.as_slice();
    for place in 0..lets.len() {
        if let Right::Parted(inner) = &lets[place].right {
            return Some(Nest {
                before: &lets[..place],
                targets: lets[place].targets.as_slice(),
                site: lets[place].site,
                inner,
                after: &lets[place + 1..],
                results: body.results.as_slice(),
            });
        }
    }
    None
}

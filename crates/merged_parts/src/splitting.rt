//! The inner loop of a part's body, and the bindings around it.

ghost use Rattle.std.specs.Prelude.{◌≡◌, option_map};
ghost use Rattle.core_ir.specs.View.{block_term};
ghost use Rattle.merged_parts.specs.Splitting.{split, split_term};

use core_ir::{Block, Let, PartedLoop, Right};
use merge_plans::nest_of;
use std::alloc::Global;

/// A body without a parted loop, and that loop.
#[derive(Drop)]
pub struct SplitBody {
    /// The other bindings, in a block without results.
    pub around: Block,
    pub inner: PartedLoop,
}

/// The first parted loop of a body, taken out of it.
pub fn split_body(alloc: Global, body: Block) -> Option<SplitBody>
    ensures { option_map split_term result ≡ split (block_term body) }
{
    let place = match nest_of(&body) {
        Some(nest) => nest.before.len(),
        None => return None,
    };
    let Block { mut lets, .. } = body;
    let Let { right, .. } = lets.remove(place);
    match right {
        Right::Parted(inner) => Some(SplitBody {
            around: Block {
                lets,
                results: Vec::new(alloc),
            },
            inner,
        }),
        _ => None,
    }
}

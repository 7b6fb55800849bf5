//! How many bindings there are.

ghost use Rattle.std.specs.Prelude.{◌≡◌};
ghost use Rattle.core_ir.specs.Counts.{bindings, bindings_right, capped};
ghost use Rattle.core_ir.specs.View.{block_term, right_term, with_term, parted_term};

use crate::{Block, PartedLoop, Right, WithLoop};

/// The number of bindings, nested ones included, or `u64::MAX` where there are more.
#[cycle(count)]
pub fn nodes(block: &Block) -> u64
    ensures { result ≡ capped (bindings (block_term block.now)) }
{
    let mut count = 0u64;
    for binding in &block.lets {
        count = count
            .saturating_add(1)
            .saturating_add(nodes_right(&binding.right));
    }
    count
}

#[cycle(count)]
fn nodes_right(right: &Right) -> u64
    ensures { result ≡ capped (bindings_right (right_term right.now)) }
{
    match right {
        Right::If { yes, no, .. } => nodes(yes).saturating_add(nodes(no)),
        Right::Loop { test, body, .. } => nodes(test).saturating_add(nodes(body)),
        Right::With(w) => nodes_with(w),
        Right::Parted(p) => nodes_parted(p),
        _ => 0,
    }
}

#[cycle(count)]
fn nodes_with(with: &WithLoop) -> u64
    ensures { result ≡ capped (bindings_right (with_term with.now)) }
{
    let mut count = 0u64;
    for generator in &with.gens {
        count = count.saturating_add(nodes(&generator.body));
    }
    count
}

#[cycle(count)]
fn nodes_parted(parted: &PartedLoop) -> u64
    ensures { result ≡ capped (bindings_right (parted_term parted.now)) }
{
    let mut count = 0u64;
    for part in &parted.parts {
        count = count.saturating_add(nodes(&part.body));
    }
    count
}

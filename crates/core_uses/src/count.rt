//! How many variables a term binds.

ghost use Rattle.std.specs.Prelude.{◌≡◌};
ghost use Rattle.core_ir.specs.Counts.{capped};
ghost use Rattle.core_ir.specs.View.{block_term, right_term, with_term, parted_term};
ghost use Rattle.core_uses.specs.Bound.{bound_count, bound_count_right};

use core_ir::{Block, PartedLoop, Right, WithLoop};

/// The number of variables that a block binds, those of blocks in it included, or `u64::MAX` where there are more.
#[cycle(binders)]
pub fn binders(block: &Block) -> u64
    ensures { result ≡ capped (bound_count (block_term block.now)) }
{
    let mut count = 0u64;
    for binding in &block.lets {
        count = count
            .saturating_add(binding.targets.len() as u64)
            .saturating_add(binders_right(&binding.right));
    }
    count
}

#[cycle(binders)]
fn binders_right(right: &Right) -> u64
    ensures { result ≡ capped (bound_count_right (right_term right.now)) }
{
    match right {
        Right::If { yes, no, .. } => binders(yes).saturating_add(binders(no)),
        Right::Loop {
            params,
            test,
            body,
            ..
        } => (params.len() as u64)
            .saturating_add(binders(test))
            .saturating_add(binders(body)),
        Right::With(w) => binders_with(w),
        Right::Parted(p) => binders_parted(p),
        _ => 0,
    }
}

#[cycle(binders)]
fn binders_with(with: &WithLoop) -> u64
    ensures { result ≡ capped (bound_count_right (with_term with.now)) }
{
    let mut count = 0u64;
    for generator in &with.gens {
        count = count
            .saturating_add(1)
            .saturating_add(generator.names.len() as u64)
            .saturating_add(binders(&generator.body));
    }
    count
}

#[cycle(binders)]
fn binders_parted(parted: &PartedLoop) -> u64
    ensures { result ≡ capped (bound_count_right (parted_term parted.now)) }
{
    let mut count = 0u64;
    for part in &parted.parts {
        count = count.saturating_add(1).saturating_add(binders(&part.body));
    }
    count
}

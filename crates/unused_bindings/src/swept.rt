//! Terms without what may go, each with the set of the variables that it uses.

ghost use Rattle.std.specs.Prelude.{◌≡◌};
ghost use Rattle.core_ir.specs.View.{block_term, let_term, right_term, gen_term, part_term};
ghost use Rattle.core_subst.specs.Names.{used_in, used_in_right};
ghost use Rattle.removal_rules.specs.Uses.{used_of, among, used_in_gen};

use core_ir::{Block, CoreGen, CorePart, Let, Right};
use fact_table::Known;
use std::collections::BTreeSet;

/// A block, and what is known of its results.
#[derive(Drop)]
pub struct SweptBlock {
    pub block: Block,
    pub used: BTreeSet<u32>,
    pub results: Vec<Known>,
    ghost uses: { used_of used ≡ among (used_in (block_term block)) },
}

/// A right side, and what is known of its values.
#[derive(Drop)]
pub struct SweptRight {
    pub right: Right,
    pub used: BTreeSet<u32>,
    pub values: Vec<Known>,
    /// Whether it is known to have a value.
    pub has_value: bool,
    ghost uses: { used_of used ≡ among (used_in_right (right_term right)) },
}

/// A binding.
#[derive(Drop)]
pub struct SweptLet {
    pub binding: Let,
    pub used: BTreeSet<u32>,
    /// Whether it may go where its variable is not used.
    pub may_go: bool,
    ghost uses: { used_of used ≡ among (used_in_right (let_term binding).right) },
}

/// A generator of a with-loop.
#[derive(Drop)]
pub struct SweptGen {
    pub generator: CoreGen,
    pub used: BTreeSet<u32>,
    ghost uses: { used_of used ≡ among (used_in_gen (gen_term generator)) },
}

/// A part of a parted loop.
#[derive(Drop)]
pub struct SweptPart {
    pub part: CorePart,
    pub used: BTreeSet<u32>,
    ghost uses: { used_of used ≡ among (used_in (part_term part).body) },
}

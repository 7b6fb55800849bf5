//! One walk over a block.

ghost use Rattle.std.specs.Prelude.{◌≡◌, IfOk, OnOk, map};
ghost use Rattle.core_ir.specs.View.{block_term};
ghost use Rattle.core_facts.specs.Facts.{block_facts};
ghost use Rattle.core_walk.specs.Traced.{Finished};
ghost use Rattle.fact_table.specs.Table.{fact_of, facts_of};
ghost use Rattle.plain_facts.specs.Called.{shapes_of};
ghost use Rattle.merge_walk.specs.Walking.{BlockWalked, MergeStep};

use crate::here::merge_here;
use core_ir::{Block, Let};
use core_walk::{Place, Rewriting, walk_block};
use fact_table::FactTable;
use parted_bodies::Progress;
use plain_facts::CalledShapes;
use plain_facts::known_rights::{KnownBlock, KnownRight};
use sac_base::Memory;
use std::alloc::Global;

/// Merges each loop of a block with the loops in its cells, if that can be done when the walk comes to it; the loops in its parts come first.
///
/// The table has what is known of variables before the block, and is left as it was. Where no loop was merged, none of the block can be.
///
/// # Errors
///
/// `Memory`: there is none for a merged loop or for what is known of a variable, or the numbers of variables have more than 32 bits.
pub fn merge_block(
    alloc: Global,
    block: Block,
    called: &CalledShapes,
    table: &mut FactTable,
    progress: &mut Progress,
) -> Result<KnownBlock, Memory>
    ensures walked { IfOk result (λ new. BlockWalked (shapes_of called.now) (facts_of table.old) progress.old progress.new (block_term block)
        (block_term new.block)) }
    ensures known { IfOk result (λ new. map fact_of new.results.items ≡ block_facts (shapes_of called.now) (block_term new.block) (facts_of table.old)) }
    ensures table { OnOk result (table.new ≡ table.old) }
{
    walk_block(alloc, block, &Merging { called }, table, progress)
}

/// Merges each loop when the bodies of its parts have been walked through.
#[derive(Drop)]
struct Merging<'a> {
    /// The known shapes of the results of calls.
    called: &'a CalledShapes,
}

impl Rewriting for Merging<'_> {
    type Progress = Progress;

    ghost called = { λ merging. shapes_of merging.called.now };

    ghost step = { λ merging. MergeStep (shapes_of merging.called.now) };

    ghost finish = { λ merging. Finished };

    fn called(&self) -> &CalledShapes {
        self.called
    }

    fn right(
        &self,
        alloc: Global,
        place: Place<'_>,
        known: KnownRight,
        table: &mut FactTable,
        progress: &mut Progress,
        _done: &mut Vec<Let>,
    ) -> Result<KnownRight, Memory> {
        merge_here(alloc, place.targets, known, self.called, table, progress)
    }

    fn block(
        &self,
        _alloc: Global,
        known: KnownBlock,
        _table: &mut FactTable,
        _progress: &mut Progress,
    ) -> Result<KnownBlock, Memory> {
        Ok(known)
    }
}

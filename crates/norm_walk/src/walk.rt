//! One walk over a block in which each partable with-loop becomes a parted loop, inner ones first.

ghost use Rattle.std.specs.Prelude.{◌≡◌, IfOk, OnOk, map};
ghost use Rattle.core_ir.specs.View.{block_term};
ghost use Rattle.core_facts.specs.Facts.{block_facts};
ghost use Rattle.core_walk.specs.Traced.{Finished};
ghost use Rattle.fact_table.specs.Table.{fact_of, facts_of};
ghost use Rattle.plain_facts.specs.Called.{shapes_of};
ghost use Rattle.variable_bases.specs.Table.{base_in};
ghost use Rattle.norm_walk.specs.Replacing.{BlockWalked, NormStep};

use crate::given::Given;
use crate::parting::replace_with;
use core_ir::{Block, Let, Right, WithLoop};
use core_walk::{Place, Rewriting, walk_block};
use fact_table::FactTable;
use parted_bodies::Progress;
use plain_facts::CalledShapes;
use plain_facts::known_rights::{KnownBlock, KnownRight};
use sac_base::Memory;
use std::alloc::Global;

/// Replaces the partable with-loops of a block by parted loops.
///
/// Of a variable that stands in the table its note counts. The table is left as it was.
pub fn norm_block(
    alloc: Global,
    block: Block,
    given: &Given<'_>,
    table: &mut FactTable,
    progress: &mut Progress,
) -> Result<KnownBlock, Memory>
    ensures walked { IfOk result (λ new. BlockWalked (shapes_of given.now.called.now) (base_in given.now.bases.now) given.now.first (facts_of table.old)
        progress.old progress.new (block_term block) (block_term new.block)) }
    ensures known { IfOk result (λ new. map fact_of new.results.items
        ≡ block_facts (shapes_of given.now.called.now) (block_term new.block) (facts_of table.old)) }
    ensures table { OnOk result (table.new ≡ table.old) }
{
    walk_block(alloc, block, given, table, progress)
}

/// Each with-loop is looked at when the bodies of its generators have been walked through.
impl Rewriting for Given<'_> {
    type Progress = Progress;

    ghost called = { λ given. shapes_of given.called.now };

    ghost step = { λ given. NormStep (shapes_of given.called.now) (base_in given.bases.now) given.first };

    ghost finish = { λ given. Finished };

    fn called(&self) -> &CalledShapes {
        self.called
    }

    fn right(
        &self,
        alloc: Global,
        place: Place<'_>,
        known: KnownRight,
        table: &mut FactTable,
        progress: &mut Progress,
        _done: &mut Vec<Let>,
    ) -> Result<KnownRight, Memory> {
        let KnownRight { right, values } = known;
        match right {
            Right::With(with) => {
                let WithLoop { gens, op } = with;
                replace_with(alloc, op, gens, place.site, self, table, progress)
            }
            other => Ok(KnownRight {
                right: other,
                values,
            }),
        }
    }

    fn block(
        &self,
        _alloc: Global,
        known: KnownBlock,
        _table: &mut FactTable,
        _progress: &mut Progress,
    ) -> Result<KnownBlock, Memory> {
        Ok(known)
    }
}

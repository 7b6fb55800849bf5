//! One walk over a block in which pairs of parted loops are folded, those in inner blocks first.

ghost use Rattle.std.specs.Prelude.{◌≡◌, IfOk, OnOk};
ghost use Rattle.core_ir.specs.View.{block_term};
ghost use Rattle.fact_table.specs.Table.{facts_of};
ghost use Rattle.plain_facts.specs.Called.{shapes_of};
ghost use Rattle.fold_walk.specs.Walking.{state_of, BlockWalked, FoldFinish, FoldStep};

use crate::level::fold_level;
use crate::state::{Folding, Given};
use core_ir::{Block, Let};
use core_walk::{Place, Rewriting, walk_block};
use fact_table::FactTable;
use plain_facts::known_rights::{KnownBlock, KnownRight};
use plain_facts::{CalledShapes, known_of};
use sac_base::Memory;
use std::alloc::Global;

/// Folds pairs of parted loops of a block: first those in blocks of its bindings, and then those that are bound in the block itself.
///
/// Of a variable that stands in the table its note counts. The table is left as it was.
///
/// # Errors
///
/// `Memory`: there is none for a loop or for what is known of a variable, or the numbers of variables have more than 32 bits.
pub fn fold_block(
    block: Block,
    given: &Given<'_>,
    table: &mut FactTable,
    folding: &mut Folding,
) -> Result<Block, Memory>
    ensures walked { IfOk result (λ new. BlockWalked (shapes_of given.now.called.now) given.now.function (facts_of table.old)
        (state_of folding.old) (state_of folding.new) (block_term block) (block_term new)) }
    ensures table { OnOk result (table.new ≡ table.old) }
{
    let walked = walk_block(given.alloc, block, given, table, folding)?;
    Ok(walked.block)
}

/// Folds the pairs that are bound in a block when its bindings have been walked through.
impl Rewriting for Given<'_> {
    type Progress = Folding;

    ghost called = { λ given. shapes_of given.called.now };

    ghost step = { λ given. FoldStep };

    ghost finish = { λ given. FoldFinish (shapes_of given.called.now) given.function };

    fn called(&self) -> &CalledShapes {
        self.called
    }

    fn right(
        &self,
        _alloc: Global,
        _place: Place<'_>,
        known: KnownRight,
        _table: &mut FactTable,
        _folding: &mut Folding,
        _done: &mut Vec<Let>,
    ) -> Result<KnownRight, Memory> {
        Ok(known)
    }

    fn block(
        &self,
        alloc: Global,
        known: KnownBlock,
        table: &mut FactTable,
        folding: &mut Folding,
    ) -> Result<KnownBlock, Memory> {
        let Block { lets, results } = known.block;
        let before = table.mark();
        let lets = fold_level(lets, &results, self, table, folding)?;
        let values = known_of(alloc, table, &results)?;
        table.undo(before);
        Ok(KnownBlock {
            block: Block { lets, results },
            results: values,
        })
    }
}

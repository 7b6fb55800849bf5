//! One walk over a block that binds each literal variable by a constant, and makes copies of checks that cannot fail.

ghost use Rattle.std.specs.Prelude.{◌≡◌, IfOk, OnOk, map};
ghost use Rattle.core_ir.specs.View.{block_term};
ghost use Rattle.core_facts.specs.Facts.{block_facts};
ghost use Rattle.core_forms.specs.cleaning.Checks.{simplified};
ghost use Rattle.core_walk.specs.Traced.{Finished};
ghost use Rattle.fact_table.specs.Table.{fact_of, facts_of};
ghost use Rattle.plain_facts.specs.Called.{shapes_of};
ghost use Rattle.const_shape.specs.Settling.{SettleStep};

use crate::plain::{is_plain, settle_plain};
use core_ir::{Block, Let};
use core_walk::{Place, Rewriting, walk_block};
use fact_table::FactTable;
use plain_facts::CalledShapes;
use plain_facts::known_rights::{KnownBlock, KnownRight};
use sac_base::Memory;
use std::alloc::Global;

/// Binds each literal variable of a block by a constant, and makes a copy of each other check that cannot fail.
///
/// Of a variable that stands in the table its note counts. The table is left as it was.
pub fn settle_block(
    alloc: Global,
    block: Block,
    called: &CalledShapes,
    table: &mut FactTable,
) -> Result<KnownBlock, Memory>
    ensures settled { IfOk result (λ new. block_term new.block ≡ simplified (shapes_of called.now) (block_term block) (facts_of table.old)) }
    ensures known { IfOk result (λ new. map fact_of new.results.items ≡ block_facts (shapes_of called.now) (block_term new.block) (facts_of table.old)) }
    ensures table { OnOk result (table.new ≡ table.old) }
{
    walk_block(alloc, block, &Settling { called }, table, &mut ())
}

/// Settles right sides without blocks and calls.
#[derive(Drop)]
struct Settling<'a> {
    /// The known shapes of the results of calls.
    called: &'a CalledShapes,
}

impl Rewriting for Settling<'_> {
    /// Nothing is counted.
    type Progress = ();

    ghost called = { λ settling. shapes_of settling.called.now };

    ghost step = { λ settling. SettleStep (shapes_of settling.called.now) };

    ghost finish = { λ settling. Finished };

    fn called(&self) -> &CalledShapes {
        self.called
    }

    fn right(
        &self,
        alloc: Global,
        _place: Place<'_>,
        known: KnownRight,
        table: &mut FactTable,
        _nothing: &mut (),
        _done: &mut Vec<Let>,
    ) -> Result<KnownRight, Memory> {
        if !is_plain(&known.right) {
            return Ok(known);
        }
        settle_plain(alloc, known.right, table)
    }

    fn block(
        &self,
        _alloc: Global,
        known: KnownBlock,
        _table: &mut FactTable,
        _nothing: &mut (),
    ) -> Result<KnownBlock, Memory> {
        Ok(known)
    }
}

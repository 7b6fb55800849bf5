//! One walk over a block.

ghost use Rattle.std.specs.Prelude.{◌≡◌, IfOk, OnOk};
ghost use Rattle.core_ir.specs.View.{block_term};
ghost use Rattle.core_forms.specs.selections.Vectors.{next, vectored};
ghost use Rattle.core_walk.specs.Traced.{Finished};
ghost use Rattle.fact_table.specs.Table.{facts_of};
ghost use Rattle.plain_facts.specs.Called.{shapes_of};
ghost use Rattle.vector_selections.specs.Vectored.{VectorStep};

use crate::choice::{bind_vector, scalar_selection};
use core_ir::{Block, Let, Right};
use core_walk::{Place, Rewriting, walk_block};
use fact_table::FactTable;
use plain_facts::CalledShapes;
use plain_facts::known_rights::{KnownBlock, KnownRight};
use sac_base::Memory;
use std::alloc::Global;

/// Lets the selections of a block by scalars that are not literal go by vectors, which are bound to the variables from the next number on.
///
/// The table has what is known before the block, and is left as it was.
pub fn in_block(
    alloc: Global,
    block: Block,
    called: &CalledShapes,
    table: &mut FactTable,
    fresh: &mut u32,
) -> Result<KnownBlock, Memory>
    ensures vectored { IfOk result (λ new. block_term new.block ≡ vectored (shapes_of called.now) (block_term block) (facts_of table.old) fresh.old) }
    ensures fresh { OnOk result (fresh.new ≡ next (shapes_of called.now) (block_term block) (facts_of table.old) fresh.old) }
    ensures table { OnOk result (table.new ≡ table.old) }
{
    walk_block(alloc, block, &Vectoring { called }, table, fresh)
}

/// Binds a vector before each selection that goes by one.
#[derive(Drop)]
struct Vectoring<'a> {
    /// The known shapes of the results of calls.
    called: &'a CalledShapes,
}

impl Rewriting for Vectoring<'_> {
    /// The number of the next vector's variable.
    type Progress = u32;

    ghost called = { λ vectoring. shapes_of vectoring.called.now };

    ghost step = { λ vectoring. VectorStep };

    ghost finish = { λ vectoring. Finished };

    fn called(&self) -> &CalledShapes {
        self.called
    }

    fn right(
        &self,
        alloc: Global,
        place: Place<'_>,
        known: KnownRight,
        table: &mut FactTable,
        fresh: &mut u32,
        done: &mut Vec<Let>,
    ) -> Result<KnownRight, Memory> {
        let Some(selection) = scalar_selection(&known.right, table) else {
            return Ok(known);
        };
        let vector = bind_vector(alloc, place.site, selection.index, fresh, done)?;
        Ok(KnownRight {
            right: Right::Select(selection.array, vector),
            values: known.values,
        })
    }

    fn block(
        &self,
        _alloc: Global,
        known: KnownBlock,
        _table: &mut FactTable,
        _fresh: &mut u32,
    ) -> Result<KnownBlock, Memory> {
        Ok(known)
    }
}

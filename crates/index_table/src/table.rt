//! The table.

ghost use Rattle.std.specs.Prelude.{◌≡◌, ◌-◌, [], ◌∷◌, length, drop, OnOk, OnErr};
ghost use Rattle.index_table.specs.Table.{index_of, indices_of};

use crate::relation::Relation;
use core_ir::Var;
use fact_table::scoped_table::ScopedTable;
use sac_base::Memory;
use std::alloc::Global;
use std::marker::Model;

/// What variables are beside the index of a part: a list of notes, the latest first, of which the first one of a variable counts.
///
/// A look-up takes the same time however many variables there are.
#[derive(Drop)]
pub struct IndexTable {
    notes: ScopedTable<Relation>,
    // of a variable without a note
    nothing: Relation,
}

impl Model for IndexTable {
    ghost use Rattle.std.specs.Prelude.{◌≡◌, List, map};
    ghost use Rattle.core_loops.specs.Indices.{Other};
    ghost use Rattle.index_table.specs.Notes.{Note};

    ghost Value = { List Note };

    ghost use Rattle.index_table.specs.Table.{index_of, index_note};

    ghost view = { λ t. map index_note t.notes };

    ghost invariant = { λ t. index_of t.nothing ≡ Other };
}

impl IndexTable {
    /// Nothing is known.
    pub fn new(alloc: Global) -> IndexTable
        ensures { result ≡ [] }
    {
        IndexTable {
            notes: ScopedTable::new(alloc),
            nothing: Relation::Other,
        }
    }

    /// What a variable is.
    pub fn at(&self, x: Var) -> &Relation
        ensures { index_of result.now ≡ indices_of self.now x }
    {
        match self.notes.get(x) {
            Some(relation) => relation,
            None => &self.nothing,
        }
    }

    /// How many notes there are: the mark to go back to.
    pub fn mark(&self) -> usize
        ensures { result ≡ length self.now }
    {
        self.notes.mark()
    }

    /// Notes what a variable is from here on.
    ///
    /// # Errors
    ///
    /// `Memory`: nothing has changed.
    pub fn learn(&mut self, x: Var, relation: Relation) -> Result<(), Memory>
        ensures learned { OnOk result (self.new ≡ record { variable = x; fact = index_of relation } ∷ self.old) }
        ensures unchanged { OnErr result (self.new ≡ self.old) }
    {
        self.notes.note(x, relation)
    }

    /// Takes back what was noted since there were so many notes, in time of how many that are.
    pub fn undo(&mut self, mark: usize)
        ensures { self.new ≡ drop (length self.old - mark) self.old }
    {
        self.notes.undo(mark);
    }
}

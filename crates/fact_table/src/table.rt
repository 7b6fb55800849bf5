//! The table.

ghost use Rattle.std.specs.Prelude.{◌≡◌, ◌-◌, [], ◌∷◌, length, drop, OnOk, OnErr};
ghost use Rattle.core_facts.specs.Facts.{Fact};
ghost use Rattle.fact_table.specs.Table.{fact_of, facts_of};

use crate::known::Known;
use crate::scoped_table::ScopedTable;
use core_ir::Var;
use sac_base::Memory;
use std::alloc::Global;
use std::marker::Model;

/// What is known of variables: a list of notes, the latest first, of which the first one of a variable counts.
///
/// A look-up takes the same time however many variables there are.
#[derive(Drop)]
pub struct FactTable {
    notes: ScopedTable<Known>,
    // what is known of a variable without a note
    nothing: Known,
}

impl Model for FactTable {
    ghost use Rattle.std.specs.Prelude.{◌≡◌, List, map};
    ghost use Rattle.core_facts.specs.Facts.{unknown};
    ghost use Rattle.fact_table.specs.Notes.{Note};

    ghost Value = { List Note };

    ghost use Rattle.fact_table.specs.Table.{fact_of, fact_note};

    ghost view = { λ t. map fact_note t.notes };

    ghost invariant = { λ t. fact_of t.nothing ≡ unknown };
}

impl FactTable {
    /// Nothing is known.
    pub fn new(alloc: Global) -> FactTable
        ensures { result ≡ [] }
    {
        FactTable {
            notes: ScopedTable::new(alloc),
            nothing: Known::nothing(),
        }
    }

    /// What is known of a variable.
    pub fn fact(&self, x: Var) -> &Known
        ensures { fact_of result.now ≡ facts_of self.now x }
    {
        match self.notes.get(x) {
            Some(known) => known,
            None => &self.nothing,
        }
    }

    /// How many notes there are: the mark to go back to.
    pub fn mark(&self) -> usize
        ensures { result ≡ length self.now }
    {
        self.notes.mark()
    }

    /// Notes what is known of a variable from here on.
    ///
    /// # Errors
    ///
    /// `Memory`: nothing has changed.
    pub fn learn(&mut self, x: Var, known: Known) -> Result<(), Memory>
        ensures learned { OnOk result (self.new ≡ record { variable = x; fact = fact_of known } ∷ self.old) }
        ensures unchanged { OnErr result (self.new ≡ self.old) }
    {
        self.notes.note(x, known)
    }

    /// Takes back what was noted since there were so many notes, in time of how many that are.
    pub fn undo(&mut self, mark: usize)
        ensures { self.new ≡ drop (length self.old - mark) self.old }
    {
        self.notes.undo(mark);
    }
}

//! What stands for variables, in a table that the end of a block takes back.

ghost use Rattle.std.specs.Prelude.{◌≡◌, ◌-◌, [], ◌∷◌, length, drop, OnOk, OnErr};
ghost use Rattle.copy_propagation.specs.Table.{source_in};

use core_ir::Var;
use fact_table::scoped_table::ScopedTable;
use sac_base::Memory;
use std::alloc::Global;
use std::marker::Model;

/// The sources of copies: a list of notes, the latest first, of which the first one of a variable counts.
///
/// A look-up takes the same time however many variables there are.
#[derive(Drop)]
pub struct Sources {
    notes: ScopedTable<Var>,
}

impl Model for Sources {
    ghost use Rattle.std.specs.Prelude.{List, map};
    ghost use Rattle.copy_propagation.specs.Notes.{Note};

    ghost Value = { List Note };

    ghost use Rattle.copy_propagation.specs.Table.{source_note};

    ghost view = { λ t. map source_note t.notes };
}

impl Sources {
    /// Each variable stands for itself.
    pub fn new(alloc: Global) -> Sources
        ensures { result ≡ [] }
    {
        Sources {
            notes: ScopedTable::new(alloc),
        }
    }

    /// What stands for a variable.
    pub fn source(&self, x: Var) -> Var
        ensures { result ≡ source_in self.now x }
    {
        match self.notes.get(x) {
            Some(source) => *source,
            None => x,
        }
    }

    /// How many notes there are: the mark to go back to.
    pub fn mark(&self) -> usize
        ensures { result ≡ length self.now }
    {
        self.notes.mark()
    }

    /// Notes what stands for a variable from here on.
    ///
    /// # Errors
    ///
    /// `Memory`: nothing has changed.
    pub fn learn(&mut self, x: Var, source: Var) -> Result<(), Memory>
        ensures learned { OnOk result (self.new ≡ record { variable = x; source = source } ∷ self.old) }
        ensures unchanged { OnErr result (self.new ≡ self.old) }
    {
        self.notes.note(x, source)
    }

    /// Takes back what was noted since there were so many notes, in time of how many that are.
    pub fn undo(&mut self, mark: usize)
        ensures { self.new ≡ drop (length self.old - mark) self.old }
    {
        self.notes.undo(mark);
    }
}

//! The table.

ghost use Rattle.std.specs.Prelude.{◌≡◌, ◌-◌, [], ◌∷◌, Some, length, drop, option_copied, OnOk, OnErr};
ghost use Rattle.fact_table.specs.scoped_table.Notes.{Note, noted};

use crate::scoped_table::slots::Slots;
use core_ir::Var;
use sac_base::Memory;
use std::alloc::Global;
use std::marker::Model;

// A variable, and what its slot held before.
#[derive(Drop)]
struct Hidden<T> {
    variable: Var,
    entry: Option<T>,
}

/// What is noted of variables: a list of notes, the latest first, of which the first one of a variable counts.
///
/// Each variable has a slot by its number, so a look-up takes the same time however many there are.
#[derive(Drop)]
pub struct ScopedTable<T> {
    slots: Slots<T>,
    // what the notes hide, the latest last
    trail: Vec<Hidden<T>>,
}

impl<T> Model for ScopedTable<T> {
    ghost use Rattle.std.specs.Prelude.{List, reverse};
    ghost use Rattle.fact_table.specs.scoped_table.Notes.{Note};

    ghost Value = { List (Note T) };

    ghost use Rattle.fact_table.specs.scoped_table.Slots.{held, notes, IsMade, Rests};

    ghost view = { λ t. notes (held t.slots) (reverse t.trail.items) };

    ghost invariant = { λ t. Rests (IsMade t.slots) (held t.slots) (reverse t.trail.items) };
}

impl<T: Drop> ScopedTable<T> {
    /// Nothing is noted.
    pub fn new(alloc: Global) -> ScopedTable<T>
        ensures { result ≡ [] }
    {
        ScopedTable {
            slots: Slots::new(alloc),
            trail: Vec::new(alloc),
        }
    }

    /// What is noted of a variable.
    pub fn get(&self, x: Var) -> Option<&T>
        ensures { option_copied result ≡ noted self.now x }
    {
        self.slots.get(x)
    }

    /// How many notes there are: the mark to go back to.
    pub fn mark(&self) -> usize
        ensures { result ≡ length self.now }
    {
        self.trail.len()
    }

    /// Notes something of a variable from here on.
    ///
    /// # Errors
    ///
    /// `Memory`: nothing has changed.
    pub fn note(&mut self, x: Var, value: T) -> Result<(), Memory>
        ensures noted { OnOk result (self.new ≡ record { variable = x; value = Some value } ∷ self.old) }
        ensures unchanged { OnErr result (self.new ≡ self.old) }
    {
        self.slots.reach(x)?;
        let entry = self.slots.exchange(x, Some(value));
        match self.trail.push(Hidden { variable: x, entry }) {
            Ok(()) => Ok(()),
            Err(failed) => {
                self.slots.put_back(x, failed.value.entry);
                Err(Memory)
            }
        }
    }

    /// Takes back what was noted since there were so many notes, in time of how many that are.
    pub fn undo(&mut self, mark: usize)
        ensures { self.new ≡ drop (length self.old - mark) self.old }
    {
        while self.mark() > mark {
            self.undo_last();
        }
    }

    // Takes back the last note, if there is one.
    fn undo_last(&mut self)
        ensures { self.new ≡ drop 1 self.old }
    {
        match self.trail.pop() {
            Some(hidden) => self.slots.put_back(hidden.variable, hidden.entry),
            None => {}
        }
    }
}

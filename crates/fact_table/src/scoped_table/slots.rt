//! Slots for the variables of a range.

ghost use Rattle.std.specs.Prelude.{◌≡◌, ◌≤◌, [], option_copied, OnOk};
ghost use Rattle.fact_table.specs.scoped_table.Slots.{all_slots, held, with_entry, IsMade, KeepsMade};

use core_ir::Var;
use sac_base::Memory;
use std::alloc::Global;
use std::collections::VecDeque;
use std::mem;

/// A slot for each variable from the least to the greatest one that was reached, so that the variables of a block far down in
/// a function take as many slots as there are, whatever their numbers.
#[derive(Drop)]
pub struct Slots<T> {
    /// The variable of the first slot.
    pub first: u32,
    /// The slots.
    pub made: VecDeque<Option<T>>,
}

impl<T: Drop> Slots<T> {
    /// No slots.
    pub fn new(alloc: Global) -> Slots<T>
        ensures { all_slots result ≡ [] }
    {
        Slots {
            first: 0,
            made: VecDeque::new(alloc),
        }
    }

    /// The entry of a variable.
    pub fn get(&self, x: Var) -> Option<&T>
        ensures { option_copied result ≡ held self.now x }
    {
        if x.0 < self.first {
            return None;
        }
        match self.made.get((x.0 - self.first) as usize) {
            Some(slot) => slot.as_ref(),
            None => None,
        }
    }

    /// Makes slots up to that of a variable.
    ///
    /// # Errors
    ///
    /// `Memory`: the entries are as before.
    pub fn reach(&mut self, x: Var) -> Result<(), Memory>
        ensures same { held self.new ≡ held self.old }
        ensures kept { KeepsMade self.old self.new }
        ensures made { OnOk result (IsMade self.new x) }
    {
        self.reach_down(x)?;
        self.reach_up(x)
    }

    // Makes slots before the first one, down to that of a variable. Where there are none they begin there.
    fn reach_down(&mut self, x: Var) -> Result<(), Memory>
        ensures same { held self.new ≡ held self.old }
        ensures kept { KeepsMade self.old self.new }
        ensures low { OnOk result (self.new.first ≤ x.0) }
    {
        if self.made.is_empty() {
            self.first = x.0;
        }
        while x.0 < self.first {
            self.made.push_front(None)?;
            self.first -= 1;
        }
        Ok(())
    }

    // Makes slots behind the last one, up to that of a variable.
    fn reach_up(&mut self, x: Var) -> Result<(), Memory>
        requires { self.old.first ≤ x.0 }
        ensures same { held self.new ≡ held self.old }
        ensures kept { KeepsMade self.old self.new }
        ensures made { OnOk result (IsMade self.new x) }
    {
        while self.made.len() <= (x.0 - self.first) as usize {
            self.made.push_back(None)?;
        }
        Ok(())
    }

    /// Puts an entry into the slot of a variable, and gives what stood there.
    pub fn exchange(&mut self, x: Var, entry: Option<T>) -> Option<T>
        requires { IsMade self.old x }
        ensures hidden { result ≡ held self.old x }
        ensures noted { held self.new ≡ with_entry (held self.old) x entry }
        ensures kept { KeepsMade self.old self.new }
    {
        mem::replace(&mut self.made[(x.0 - self.first) as usize], entry)
    }

    /// Puts into the slot of a variable what stood there before.
    pub fn put_back(&mut self, x: Var, entry: Option<T>)
        requires { IsMade self.old x }
        ensures noted { held self.new ≡ with_entry (held self.old) x entry }
        ensures kept { KeepsMade self.old self.new }
    {
        let _entry = self.exchange(x, entry);
    }
}

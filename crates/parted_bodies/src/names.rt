//! New variables, and which of them stand for the variables of a block in a copy.

ghost use Rattle.std.specs.Prelude.{◌≡◌, suc, ◌+◌, length, IfOk, OnOk};
ghost use Rattle.core_ir.specs.declared.tree.Var.{Var as Variable};
ghost use Rattle.core_subst.specs.Names.{variable};
ghost use Rattle.parted_bodies.specs.Numbering.{named, named_in, numbered};

use core_ir::Var;
use sac_base::Memory;
use std::alloc::Global;
use std::collections::BTreeMap;

/// How far a round is: the number of the next new variable, and how many with-loops were replaced.
#[derive(Clone, Copy, Debug)]
pub struct Progress {
    pub next: u64,
    pub replaced: u64,
}

impl Progress {
    /// The next new variable.
    ///
    /// # Errors
    ///
    /// `Memory`: its number has more than 32 bits.
    pub fn take(&mut self) -> Result<Var, Memory>
        ensures var { IfOk result (λ x. x ≡ variable self.old.next) }
        ensures next { OnOk result (self.new ≡ record self.old { next = suc self.old.next }) }
    {
        match u32::try_from(self.next) {
            Ok(number) => {
                self.next += 1;
                Ok(Var(number))
            }
            Err(_) => Err(Memory),
        }
    }

    /// One with-loop more was replaced.
    ///
    /// # Errors
    ///
    /// `Memory`: there were 2^64 - 1.
    pub fn count(&mut self) -> Result<(), Memory>
        ensures { OnOk result (self.new ≡ record self.old { replaced = suc self.old.replaced }) }
    {
        match self.replaced.checked_add(1) {
            Some(replaced) => {
                self.replaced = replaced;
                Ok(())
            }
            None => Err(Memory),
        }
    }
}

/// The variables that stand for others in a copy. Any other variable stands for itself.
#[derive(Drop)]
pub struct Names {
    entries: BTreeMap<u32, Var>,
}

impl Names {
    /// Each variable stands for itself.
    pub fn new(alloc: Global) -> Names
        ensures { (x : Variable) → named_in result x ≡ x }
    {
        Names {
            entries: BTreeMap::new(alloc),
        }
    }

    /// The variable that stands for this one.
    pub fn of(&self, x: Var) -> Var
        ensures { result ≡ named_in self.now x }
    {
        match self.entries.get(&x.0) {
            Some(y) => *y,
            None => x,
        }
    }

    /// Lets a variable stand for another from here on.
    ///
    /// # Errors
    ///
    /// `Memory`: there is none for the entry.
    pub fn set(&mut self, x: Var, y: Var) -> Result<(), Memory>
        ensures { OnOk result ((z : Variable) → named_in self.new z ≡ named (named_in self.old) x y z) }
    {
        self.entries.insert(x.0, y)?;
        Ok(())
    }

    /// Lets new variables stand for these, one after another.
    ///
    /// # Errors
    ///
    /// `Memory`: there is none for the entries, or the numbers have more than 32 bits.
    pub fn set_all(&mut self, xs: &[Var], progress: &mut Progress) -> Result<(), Memory>
        ensures named { OnOk result ((z : Variable) → named_in self.new z ≡ numbered (named_in self.old) xs.now progress.old.next z) }
        ensures next { OnOk result (progress.new ≡ record progress.old { next = progress.old.next + length xs.now }) }
    {
        for x in xs {
            let y = progress.take()?;
            self.set(*x, y)?;
        }
        Ok(())
    }
}

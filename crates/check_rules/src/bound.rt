//! The names that are bound where the walk stands.

ghost use Rattle.std.specs.Prelude.{◌≡◌, ◌++◌, [], ◌∷◌, ◌≤◌, take, drop, length, ◌&&◌, ◌||◌, OnOk, IfOk};
ghost use Rattle.check_rules.specs.Accepted.{with_names};
ghost use Rattle.std.proofs.Props.{props};
ghost use Rattle.check_rules.specs.Tables.{among, has, with_common, IsPlaced};

use indexmap::{IndexMap, IndexSet};
use sac_base::{Memory, Name};
use std::alloc::Global;

/// A stack of names, each once. A name is found by the place at which it was pushed last.
#[derive(Drop)]
pub struct Bound<'a> {
    pub trail: Vec<&'a str>,
    places: IndexMap<&'a str, usize>,
    ghost placed: { IsPlaced trail.items places } by { Prim.hlevel props },
}

impl<'a> Bound<'a> {
    pub fn new(alloc: Global) -> Self
        ensures { result.trail.items ≡ [] }
    {
        Bound {
            trail: Vec::new(alloc),
            places: IndexMap::new(alloc),
        }
    }

    pub fn contains(&self, name: &str) -> bool
        ensures { result ≡ among self.now.trail.items name.now }
    {
        match self.places.get(name) {
            None => false,
            Some(place) => {
                if *place < self.trail.len() {
                    self.trail[*place] == name
                } else {
                    false
                }
            }
        }
    }

    /// Binds a name.
    pub fn push(&mut self, name: &'a str) -> Result<(), Memory>
        ensures names { OnOk result (among self.new.trail.items ≡ with_names (name.now ∷ []) (among self.old.trail.items)) }
        ensures kept { OnOk result (take (length self.old.trail.items) self.new.trail.items ≡ self.old.trail.items) }
    {
        if self.contains(name) {
            return Ok(());
        }
        self.places.insert(name, self.trail.len())?;
        self.trail.push(name)?;
        Ok(())
    }

    /// The number of names.
    pub fn mark(&self) -> usize
        ensures { result ≡ length self.now.trail.items }
    {
        self.trail.len()
    }

    /// Takes the names off that were bound after the first ones.
    pub fn leave(&mut self, mark: usize)
        ensures { self.new.trail.items ≡ take mark self.old.trail.items }
    {
        self.trail.truncate(mark);
    }

    /// The names that were bound after the first ones.
    pub fn since(&self, alloc: Global, mark: usize) -> Result<IndexSet<&'a str>, Memory>
        ensures { IfOk result (λ names. has names ≡ among (drop mark self.now.trail.items)) }
    {
        let mut names = IndexSet::new(alloc);
        for k in mark..self.trail.len() {
            names.insert(self.trail[k])?;
        }
        Ok(names)
    }

    /// Binds the names that are in both sets.
    pub fn push_common(
        &mut self,
        first: &IndexSet<&'a str>,
        second: &IndexSet<&'a str>,
    ) -> Result<(), Memory>
        ensures names { OnOk result (among self.new.trail.items ≡ with_common (has first.now) (has second.now) (among self.old.trail.items)) }
        ensures kept { OnOk result (take (length self.old.trail.items) self.new.trail.items ≡ self.old.trail.items) }
    {
        for name in second.as_slice() {
            if first.contains(*name) {
                self.push(*name)?;
            }
        }
        Ok(())
    }
}

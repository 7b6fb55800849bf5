//! What a function uses, in order, and where each variable is used last before a place.

ghost use Rattle.std.specs.Prelude.{◌≡◌, List, length, slice_get, slice_index_or, take, IfOk};
ghost use Rattle.ref_rules.specs.listed_uses.Latest.{EndsAt, IsLast, behind_of, head_of, section};
ghost use Rattle.ref_rules.specs.declared.listed_uses.list.Entry.{Entry as Listed};

use core_ir::Var;
use sac_base::Memory;
use std::alloc::Global;
use std::collections::HashMap;
use std::marker::Model;

/// An entry of a list of uses: a use of a variable, or the head of a section with the number of its entries, which follow.
#[derive(Clone, Copy)]
pub enum Entry {
    Use(Var),
    Section(usize),
}

/// A list of uses, which tells of each variable where it is used last before a place.
#[derive(Drop)]
pub struct Uses {
    entries: Vec<Entry>,
    // for each use the place behind the use of the same variable before it, or 0
    earlier: Vec<usize>,
    // for the number of each variable the place behind its last use
    last: HashMap<u32, usize>,
}

impl Model for Uses {
    ghost use Rattle.std.specs.Prelude.{List};
    ghost use Rattle.ref_rules.specs.declared.listed_uses.list.Entry.{Entry};

    ghost Value = { List Entry };

    ghost use Rattle.ref_rules.specs.listed_uses.Latest.{AreChained, AreLast};

    ghost view = { λ uses. uses.entries.items };

    ghost invariant = { λ uses. AreLast uses.last uses.entries.items × AreChained uses.earlier.items uses.entries.items };
}

impl Uses {
    /// The list of these entries.
    ///
    /// # Errors
    ///
    /// `Memory`: there is none for the places of the uses.
    pub fn new(alloc: Global, entries: Vec<Entry>) -> Result<Uses, Memory>
        ensures { IfOk result (λ uses. uses ≡ entries.items) }
    {
        let mut earlier = Vec::new(alloc);
        let mut last = HashMap::new(alloc);
        for place in 0..entries.len() {
            match entries[place] {
                Entry::Use(x) => {
                    earlier.push(behind_last(&last, x))?;
                    last.insert(x.0, place + 1)?;
                }
                Entry::Section(_) => earlier.push(0)?,
            }
        }
        Ok(Uses {
            entries,
            earlier,
            last,
        })
    }

    /// The place behind so many entries.
    pub fn skip(&self, place: usize, count: usize) -> usize
        ensures { (inner : List Listed) → count ≡ length inner → EndsAt self.now place inner result }
    {
        let _ = &self.entries;
        place.saturating_add(count)
    }

    /// The place behind the section whose head stands at a place.
    pub fn section_end(&self, place: usize) -> usize
        ensures { (inner : List Listed) → EndsAt self.now place (section inner) result }
    {
        let _ = &self.entries;
        self.skip(place, self.count_at(place).saturating_add(1))
    }

    // How many entries the section has whose head stands at a place.
    fn count_at(&self, place: usize) -> usize
        ensures { result ≡ head_of (slice_get self.now place) }
    {
        match self.entries.get(place) {
            Some(Entry::Section(count)) => *count,
            _ => 0,
        }
    }

    /// The place behind the last use of a variable before `end`, or 0, in steps of its uses from `end` on.
    pub fn used_before(&self, end: usize, x: Var) -> usize
        ensures { IsLast (take end self.now) x result }
    {
        let mut behind = behind_last(&self.last, x);
        while behind > end {
            behind = behind_earlier(&self.earlier, behind - 1);
        }
        behind
    }
}

fn behind_earlier(earlier: &[usize], place: usize) -> usize
    ensures { result ≡ slice_index_or earlier.now place 0 }
{
    match earlier.get(place) {
        Some(behind) => *behind,
        None => 0,
    }
}

fn behind_last(last: &HashMap<u32, usize>, x: Var) -> usize
    ensures { result ≡ behind_of last.now x }
{
    match last.get(&x.0) {
        Some(behind) => *behind,
        None => 0,
    }
}

//! The variables of all calls, in one stack.

ghost use Rattle.std.specs.Prelude.{◌≡◌, ◌<◌, ◌≤◌, ◌∷◌, ◌++◌, ◌+◌, [], All, List, drop, length, IsTrue, OnOk, IfOk, IfSome};
ghost use Rattle.core_ir.specs.declared.tree.Var.{Var};
ghost use Rattle.counted_code.specs.Machine.{Values, no_values, bind_value, missing_value};
ghost use Rattle.counted_code.specs.Values.{Small};
ghost use Rattle.sac_base.specs.Arrays.{scalar};
ghost use Rattle.run_values.specs.Scopes.{IsBehind, all_slots, slots_of, own_without, own_below, seen, current, outer};
ghost use Rattle.run_values.specs.Shown.{value_of};

use crate::value::{RunValue, Word};
use core_ir::Var;
use sac_base::Memory;
use std::alloc::Global;

// What is to be undone at the end of a scope.
#[derive(Clone, Copy, Debug)]
enum Undo {
    // a variable's slot was bound
    Bound(usize),
    // a scope began
    Scope,
    // a call began, and this was the first slot of the caller
    Call(usize),
}

impl Undo {
    // Whether this writes no slot below a number.
    fn is_behind(&self, count: usize) -> bool
        ensures { IsTrue result → IsBehind count self.now }
    {
        match self {
            Undo::Bound(slot) => count <= *slot,
            Undo::Scope => true,
            Undo::Call(_) => false,
        }
    }
}

/// The variables of all calls: a slot for each, at the variable's number behind the first slot of its call. A variable that has no slot yet is not bound.
#[derive(Drop)]
pub struct Frames<'a> {
    // slots of a call elsewhere, which are only read; they stand before all others
    outside: &'a [RunValue],
    slots: Vec<RunValue>,
    // the first slot of the call that runs, counted over both
    base: usize,
    trail: Vec<Undo>,
}

impl<'a> Frames<'a> {
    /// No variable is bound.
    pub fn new(alloc: Global) -> Frames<'a>
        ensures current { current result ≡ no_values }
        ensures outer { outer result ≡ [] }
    {
        Frames::over(alloc, &[], Vec::new(alloc))
    }

    /// The variables of the call that runs, and of no other one. They are read where they stand, unless some of them stand elsewhere and some here.
    pub fn lent(&self, alloc: Global) -> Result<Frames<'_>, Memory>
        ensures { IfOk result (λ frames. current frames ≡ current self.now) }
    {
        let mut slots = Vec::new(alloc);
        if let Some(own) = self.base.checked_sub(self.outside.len()) {
            let outside = up_to_last(rest(&self.slots, own));
            return Ok(Frames::over(alloc, outside, slots));
        }
        slots.extend_from_slice(rest(self.outside, self.base))?;
        slots.extend_from_slice(&self.slots)?;
        Ok(Frames::over(alloc, &[], slots))
    }

    // Slots outside and others behind them, of one call.
    fn over(alloc: Global, outside: &'a [RunValue], slots: Vec<RunValue>) -> Frames<'a>
        ensures current { current result ≡ seen (slots_of (outside.now ++ slots.items)) 0 }
        ensures outer { outer result ≡ [] }
    {
        Frames {
            outside,
            slots,
            base: 0,
            trail: Vec::new(alloc),
        }
    }

    /// The value of a variable.
    #[inline(always)]
    pub fn get(&self, x: Var) -> RunValue
        ensures { value_of result ≡ current self.now x }
    {
        match self.base.checked_add(x.0 as usize) {
            Some(slot) => self.value_at(slot),
            None => {
                // what is counted by a word has no slot of a larger number
                let _count = self.count();
                RunValue::Unbound
            }
        }
    }

    // What stands in a slot.
    #[inline(always)]
    fn value_at(&self, slot: usize) -> RunValue
        ensures { result ≡ slots_of (all_slots self.now) slot }
    {
        match slot.checked_sub(self.outside.len()) {
            Some(own) => value_in(&self.slots, own),
            None => value_in(self.outside, slot),
        }
    }

    /// The scalar that a variable is bound to, if it is one.
    #[inline(always)]
    pub fn word(&self, x: Var) -> Option<Word>
        ensures { IfSome result (λ w. current self.now x ≡ Small (scalar w.base w.number)) }
    {
        match self.get(x) {
            RunValue::Word(base, number) => Some(Word { base, number }),
            _ => None,
        }
    }

    /// How many variables the call that runs may have bound: none is from this number on.
    pub fn slots(&self) -> usize
        ensures { (x : Var) → result ≤ x.0 → current self.now x ≡ missing_value }
    {
        self.count().saturating_sub(self.base)
    }

    // How many slots there are.
    #[inline(always)]
    fn count(&self) -> usize
        ensures { result ≡ length (all_slots self.now) }
    {
        self.outside.len() + self.slots.len()
    }

    /// Binds a variable that is not bound. One that is bound counts as want of memory.
    pub fn bind(&mut self, x: Var, value: RunValue) -> Result<(), Memory>
        ensures current { OnOk result (current self.new ≡ bind_value (current self.old) x (value_of value)) }
        ensures outer { OnOk result (outer self.new ≡ outer self.old) }
    {
        let Some(slot) = self.base.checked_add(x.0 as usize) else {
            return Err(Memory);
        };
        let own = self.own_place(slot)?;
        grow(&mut self.slots, own)?;
        if !is_free(&self.slots, own) {
            return Err(Memory);
        }
        self.trail.push(Undo::Bound(slot))?;
        self.slots[own] = value;
        Ok(())
    }

    // The place of a slot in those that may be written.
    #[inline(always)]
    fn own_place(&mut self, slot: usize) -> Result<usize, Memory>
        ensures place { IfOk result (λ own. slot ≡ length self.new.outside.now + own) }
        ensures slots { OnOk result (all_slots self.new ≡ all_slots self.old) }
        ensures base { OnOk result (self.new.base ≡ self.old.base) }
        ensures outer { OnOk result (outer self.new ≡ outer self.old) }
    {
        if let Some(own) = slot.checked_sub(self.outside.len()) {
            return Ok(own);
        }
        self.take_over()?;
        Ok(slot)
    }

    // Copies the slots outside, so that they may be written.
    #[inline(never)]
    fn take_over(&mut self) -> Result<(), Memory>
        ensures outside { OnOk result (self.new.outside.now ≡ []) }
        ensures slots { OnOk result (all_slots self.new ≡ all_slots self.old) }
        ensures base { OnOk result (self.new.base ≡ self.old.base) }
        ensures outer { OnOk result (outer self.new ≡ outer self.old) }
    {
        if !are_behind(&self.trail, self.outside.len()) {
            return Err(Memory);
        }
        let mut slots = Vec::new(*self.slots.allocator());
        slots.extend_from_slice(self.outside)?;
        slots.extend_from_slice(&self.slots)?;
        self.outside = &[];
        self.slots = slots;
        Ok(())
    }

    /// Begins a scope: what is bound in it is bound no longer after `leave`.
    pub fn enter(&mut self) -> Result<(), Memory>
        ensures current { OnOk result (current self.new ≡ current self.old) }
        ensures outer { OnOk result (outer self.new ≡ current self.old ∷ outer self.old) }
    {
        self.trail.push(Undo::Scope)?;
        Ok(())
    }

    /// Begins the scope of a call, in which no variable is bound.
    pub fn enter_call(&mut self) -> Result<(), Memory>
        ensures current { OnOk result (current self.new ≡ no_values) }
        ensures outer { OnOk result (outer self.new ≡ current self.old ∷ outer self.old) }
    {
        self.trail.push(Undo::Call(self.base))?;
        self.base = self.count();
        Ok(())
    }

    /// Ends the scope that began last.
    pub fn leave(&mut self)
        ensures { (e : Values) (es : List Values) → outer self.old ≡ e ∷ es → (current self.new ≡ e) × (outer self.new ≡ es) }
    {
        while let Some(undo) = self.trail.pop() {
            match undo {
                Undo::Bound(slot) => free(self.outside, &mut self.slots, slot),
                Undo::Scope => return,
                Undo::Call(caller) => {
                    cut(self.outside, &mut self.slots, self.base);
                    self.base = caller;
                    return;
                }
            }
        }
    }
}

// Makes slots up to this one.
#[inline(never)]
fn grow(slots: &mut Vec<RunValue>, slot: usize) -> Result<(), Memory>
    ensures same { slots_of slots.new.items ≡ slots_of slots.old.items }
    ensures there { OnOk result (slot < length slots.new.items) }
{
    if slot < slots.len() {
        return Ok(());
    }
    let Some(count) = slot.checked_add(1) else {
        return Err(Memory);
    };
    slots.resize(count, RunValue::Unbound)?;
    Ok(())
}

// Whether nothing is bound in this slot.
#[inline(always)]
fn is_free(slots: &[RunValue], slot: usize) -> bool
    ensures { IsTrue result → slots_of slots.now slot ≡ RunValue.Unbound }
{
    match slots.get(slot) {
        Some(value) => matches!(value, RunValue::Unbound),
        None => true,
    }
}

// Nothing is bound in this slot any longer, unless it stands outside.
fn free(outside: &[RunValue], slots: &mut Vec<RunValue>, slot: usize)
    ensures { slots_of (outside.now ++ slots.new.items) ≡ own_without (length outside.now) slot (slots_of (outside.now ++ slots.old.items)) }
{
    let Some(own) = slot.checked_sub(outside.len()) else {
        return;
    };
    if own < slots.len() {
        slots[own] = RunValue::Unbound;
    }
}

// No slot from this one on is there any longer, unless it stands outside.
fn cut(outside: &[RunValue], slots: &mut Vec<RunValue>, base: usize)
    ensures { slots_of (outside.now ++ slots.new.items) ≡ own_below (length outside.now) base (slots_of (outside.now ++ slots.old.items)) }
{
    slots.truncate(base.saturating_sub(outside.len()));
}

// The slots from one on.
fn rest(slots: &[RunValue], base: usize) -> &[RunValue]
    ensures { result.now ≡ drop base slots.now }
{
    if base >= slots.len() {
        return &[];
    }
    &slots[base..]
}

// The slots up to the last in which something is bound, so that what is bound later stands behind them.
fn up_to_last(slots: &[RunValue]) -> &[RunValue]
    ensures { slots_of result.now ≡ slots_of slots.now }
{
    let mut count = slots.len();
    while count > 0 && is_free(slots, count - 1) {
        count -= 1;
    }
    &slots[..count]
}

// What stands in one of these slots.
#[inline(always)]
fn value_in(slots: &[RunValue], slot: usize) -> RunValue
    ensures { result ≡ slots_of slots.now slot }
{
    match slots.get(slot) {
        Some(value) => *value,
        None => RunValue::Unbound,
    }
}

// Whether none of these writes a slot below a number.
fn are_behind(trail: &[Undo], count: usize) -> bool
    ensures { IsTrue result → All (IsBehind count) trail.now }
{
    trail.iter().all(|undo| undo.is_behind(count))
}

//! The places of the bindings that may use each variable.

ghost use Rattle.std.specs.Prelude.{◌≡◌, ℕ, ◌<◌, List, Some, true, false, nat_eq, IfOk, IfSome, IfNone, OnOk, length, map, slice_set};
ghost use Rattle.std.specs.HashMap.{get};
ghost use Rattle.core_ir.specs.declared.tree.Let.{Let as Binding};
ghost use Rattle.core_ir.specs.declared.tree.Var.{Var as Variable};
ghost use Rattle.core_ir.specs.Terms.{LetTerm};
ghost use Rattle.core_ir.specs.Uses.{AvoidsRight};
ghost use Rattle.core_ir.specs.View.{let_term, right_term};
ghost use Rattle.binding_users.specs.Users.{may_use, AreUsers, Covers, Grows, IsSoleUser, UsesAt};

use crate::collect::add_right;
use crate::scan::{found_user, user_at, uses_at};
use core_ir::{Let, Right, Var};
use sac_base::Memory;
use std::alloc::Global;
use std::collections::HashMap;

/// The places of bindings that may use a variable: one alone, or two of several.
#[derive(Clone, Copy, Debug, PartialEq, Eq)]
pub enum Place {
    One(usize),
    Several(usize, usize),
}

/// For the number of each variable the places of bindings of a block that may use it. They are noted when one is asked for first.
#[derive(Drop)]
pub struct Users {
    are_noted: bool,
    places: HashMap<u32, Place>,
}

impl Users {
    /// Nothing is noted so far.
    pub fn new(alloc: Global) -> Users
        ensures { (lets : List LetTerm) → AreUsers result lets }
    {
        Users {
            are_noted: false,
            places: HashMap::new(alloc),
        }
    }

    /// The place of the one binding that uses a variable, if the results do not.
    ///
    /// # Errors
    ///
    /// `Memory`: there is none for the places.
    pub fn sole_user(
        &mut self,
        alloc: Global,
        x: Var,
        lets: &[Let],
        results: &[Var],
    ) -> Result<Option<usize>, Memory>
        requires { AreUsers self.old (map let_term lets.now) }
        ensures some { IfOk result (λ found. IfSome found (λ place. IsSoleUser x (map let_term lets.now) results.now place)) }
        ensures inside { IfOk result (λ found. IfSome found (λ place. place < length lets.now)) }
        ensures none { IfOk result (λ found. IfNone found ((place : ℕ) → IsSoleUser x (map let_term lets.now) results.now place → ⊥)) }
        ensures users { OnOk result (AreUsers self.new (map let_term lets.now)) }
    {
        self.note_all(alloc, lets)?;
        Ok(self.user_among(x, lets, results))
    }

    /// A binding stands in the place of another.
    ///
    /// # Errors
    ///
    /// `Memory`: there is none for its uses.
    pub fn replace(&mut self, alloc: Global, place: usize, new: &Let) -> Result<(), Memory>
        ensures { OnOk result ((lets : List Binding) → AreUsers self.old (map let_term lets)
            → AreUsers self.new (map let_term (slice_set lets place new.now))) }
    {
        self.note_uses(alloc, place, &new.right)?;
        Ok(())
    }

    /// Notes the uses in all bindings, if that was not done.
    fn note_all(&mut self, alloc: Global, lets: &[Let]) -> Result<(), Memory>
        requires { AreUsers self.old (map let_term lets.now) }
        ensures { OnOk result (Covers self.new.places (map let_term lets.now)) }
    {
        if self.are_noted {
            return Ok(());
        }
        for place in 0..lets.len() {
            self.note_uses(alloc, place, &lets[place].right)?;
        }
        self.are_noted = true;
        Ok(())
    }

    /// Notes the uses in a right side.
    fn note_uses(&mut self, alloc: Global, place: usize, right: &Right) -> Result<(), Memory>
        ensures grows { OnOk result (Grows self.old.places self.new.places) }
        ensures noted { OnOk result ((x : Variable) → may_use (get nat_eq self.new.places x.0) place ≡ false → AvoidsRight x (right_term right.now)) }
        ensures when { self.new.are_noted ≡ self.old.are_noted }
    {
        let mut used = Vec::new(alloc);
        add_right(right, &mut used)?;
        for x in &used {
            note(&mut self.places, *x, place)?;
        }
        Ok(())
    }

    /// The one user by what is noted.
    fn user_among(&self, x: Var, lets: &[Let], results: &[Var]) -> Option<usize>
        requires { Covers self.now.places (map let_term lets.now) }
        ensures some { IfSome result (λ place. IsSoleUser x (map let_term lets.now) results.now place) }
        ensures inside { IfSome result (λ place. place < length lets.now) }
        ensures none { IfNone result ((place : ℕ) → IsSoleUser x (map let_term lets.now) results.now place → ⊥) }
    {
        match self.places.get(&x.0) {
            None => None,
            Some(Place::One(place)) => user_at(x, lets, results, *place),
            Some(Place::Several(one, other)) => {
                if are_two(x, lets, *one, *other) {
                    None
                } else {
                    found_user(x, lets, results)
                }
            }
        }
    }
}

/// Whether these are two bindings that use the variable.
fn are_two(x: Var, lets: &[Let], one: usize, other: usize) -> bool
    ensures { result ≡ true → (UsesAt x (map let_term lets.now) one) × (UsesAt x (map let_term lets.now) other) × (one ≡ other → ⊥) }
{
    one != other && uses_at(x, lets, one) && uses_at(x, lets, other)
}

/// The binding at a place may use the variable too.
fn note(places: &mut HashMap<u32, Place>, x: Var, place: usize) -> Result<(), Memory>
    ensures here { OnOk result (may_use (get nat_eq places.new x.0) place ≡ true) }
    ensures grows { OnOk result (Grows places.old places.new) }
{
    let noted = places.get(&x.0).copied();
    places.insert(x.0, with_place(noted, place))?;
    Ok(())
}

/// What is noted of a variable after one use more.
fn with_place(noted: Option<Place>, place: usize) -> Place
    ensures here { may_use (Some result) place ≡ true }
    ensures grows { (q : ℕ) → may_use (Some result) q ≡ false → may_use noted q ≡ false }
{
    match noted {
        None => Place::One(place),
        Some(Place::One(other)) => {
            if other == place {
                Place::One(place)
            } else {
                Place::Several(other, place)
            }
        }
        Some(several) => several,
    }
}

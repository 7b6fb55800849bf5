//! The table.

ghost use Rattle.std.specs.Prelude.{◌≡◌, [], ◌∷◌, IfOk, OnOk};
ghost use Rattle.core_ir.specs.View.{fun_term};
ghost use Rattle.variable_bases.specs.Learned.{HasParams, Noted, Notes, Takes, Numbers};
ghost use Rattle.variable_bases.specs.Table.{base_in, may_be, may_have as may_have_bases, TellsOf, HasSources};

use crate::learn::learn_block;
use crate::signatures::Signatures;
use core_ir::{CoreFun, Var};
use sac_base::{ArrayType, Base, Memory, same_base};
use std::alloc::Global;

/// The bases of a function's variables, so far as they can be told.
///
/// A variable that always faults has no base, nor has one that comes from such variables alone.
#[derive(Drop)]
pub struct BaseTable {
    // by the variable's number
    slots: Vec<Option<Base>>,
}

impl BaseTable {
    /// The bases of a function's variables.
    ///
    /// # Errors
    ///
    /// `Memory`: there is none for the table.
    pub fn of_function(
        alloc: Global,
        function: &CoreFun,
        signatures: &Signatures,
    ) -> Result<BaseTable, Memory>
        ensures tells { IfOk result (λ table. TellsOf (fun_term function.now) signatures.now table) }
        ensures sources { IfOk result (λ table. HasSources (fun_term function.now) signatures.now table) }
    {
        let mut table = BaseTable::of_params(alloc, &function.params)?;
        learn_block(&function.body, signatures, &mut table)?;
        Ok(table)
    }

    // Of two parameters with one number the first counts, so the last is noted first.
    fn of_params(alloc: Global, params: &[(Var, ArrayType)]) -> Result<BaseTable, Memory>
        ensures { IfOk result (λ table. HasParams params.now table) }
    {
        let mut table = BaseTable {
            slots: Vec::new(alloc),
        };
        let mut left = params.len();
        while left > 0 {
            left -= 1;
            let (x, ty) = &params[left];
            table.note(*x, ty.base)?;
        }
        Ok(table)
    }

    /// The base of a variable, if it can be told.
    pub fn of(&self, x: Var) -> Option<Base>
        ensures { result ≡ base_in self.now x }
    {
        match self.slots.get(x.0 as usize) {
            Some(base) => *base,
            None => None,
        }
    }

    fn note(&mut self, x: Var, base: Base) -> Result<(), Memory>
        ensures { OnOk result (Noted x base self.old self.new) }
    {
        let place = x.0 as usize;
        if self.slots.len() <= place {
            self.slots.resize(place + 1, None)?;
        }
        self.slots[place] = Some(base);
        Ok(())
    }

    pub(crate) fn note_numbers(&mut self, xs: &[Var]) -> Result<(), Memory>
        ensures { OnOk result (Numbers xs.now self.old self.new) }
    {
        for x in xs {
            self.note(*x, Base::Int)?;
        }
        Ok(())
    }

    pub(crate) fn note_each(&mut self, xs: &[Var], bases: &[Base]) -> Result<(), Memory>
        ensures { OnOk result (Notes xs.now bases.now self.old self.new) }
    {
        for k in 0..xs.len().min(bases.len()) {
            self.note(xs[k], bases[k])?;
        }
        Ok(())
    }

    pub(crate) fn take_each(&mut self, xs: &[Var], sources: &[Var]) -> Result<(), Memory>
        ensures { OnOk result (Takes xs.now sources.now self.old self.new) }
    {
        for k in 0..xs.len().min(sources.len()) {
            if let Some(base) = self.of(sources[k]) {
                self.note(xs[k], base)?;
            }
        }
        Ok(())
    }

    /// Whether the variables may have these bases.
    pub(crate) fn may_have(&self, xs: &[Var], bases: &[Base]) -> bool
        ensures { result ≡ may_have_bases self.now xs.now bases.now }
    {
        if xs.len() != bases.len() {
            return false;
        }
        for k in 0..xs.len().min(bases.len()) {
            if !may_be(self.of(xs[k]), bases[k]) {
                return false;
            }
        }
        true
    }
}

fn may_be(base: Option<Base>, other: Base) -> bool
    ensures { result ≡ may_be base other }
{
    match base {
        Some(base) => same_base(base, other),
        None => true,
    }
}

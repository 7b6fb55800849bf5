//! What is known of variables at a place, which the end of a block takes back.

ghost use Rattle.std.specs.Prelude.{◌≡◌, ◌∷◌, [], IfOk, OnOk, map, length};
ghost use Rattle.core_ir.specs.declared.tree.Var.{Var as Variable};
ghost use Rattle.core_facts.specs.Facts.{note_all, no_facts, shape_fact};
ghost use Rattle.core_facts.specs.constants.Called.{shape_of_type};
ghost use Rattle.counted_marks.specs.Bases.{no_bases, note_bases, note_ints};
ghost use Rattle.counted_marks.specs.Known.{in_loop};
ghost use Rattle.sac_base.specs.declared.types.ArrayType.{ArrayType as TypeOf};
ghost use Rattle.reuse_candidates.specs.Scopes.{known_in, learned_in, mark_of, of_index, of_indices, taken_back, told, told_vars};

use crate::bases::{BaseTable, bases_at, learn_bases, learn_ints};
use core_ir::Var;
use fact_table::scoped_table::ScopedTable;
use fact_table::shapes::type_shape;
use fact_table::{FactTable, Known};
use plain_facts::{forget, forget_index, known_of, learn_all, learn_index};
use sac_base::{ArrayType, Base, Grid, Memory};
use std::alloc::Global;

/// What is known of variables at a place: their facts, and their bases.
#[derive(Drop)]
pub struct Scope {
    pub facts: FactTable,
    pub bases: BaseTable,
}

/// A place to go back to.
#[derive(Clone, Copy)]
pub struct ScopeMark {
    facts: usize,
    bases: usize,
}

/// What is known of several values.
#[derive(Drop)]
pub struct Values {
    pub known: Vec<Known>,
    pub bases: Vec<Option<Base>>,
}

impl Scope {
    /// Nothing is known.
    pub fn new(alloc: Global) -> Scope
        ensures facts { (known_in result).facts ≡ no_facts }
        ensures bases { (known_in result).bases ≡ no_bases }
    {
        Scope {
            facts: FactTable::new(alloc),
            bases: ScopedTable::new(alloc),
        }
    }

    /// The place to go back to.
    pub fn mark(&self) -> ScopeMark
        ensures { result ≡ mark_of self.now }
    {
        ScopeMark {
            facts: self.facts.mark(),
            bases: self.bases.mark(),
        }
    }

    /// Takes back what was learned since the mark.
    pub fn undo(&mut self, mark: ScopeMark)
        ensures { self.new ≡ taken_back mark self.old }
    {
        self.facts.undo(mark.facts);
        self.bases.undo(mark.bases);
    }

    /// What is known of variables.
    ///
    /// # Errors
    ///
    /// `Memory`: there is none for it.
    pub fn values(&self, alloc: Global, vars: &[Var]) -> Result<Values, Memory>
        ensures { IfOk result (λ values. told values ≡ told_vars (known_in self.now) vars.now) }
    {
        Ok(Values {
            known: known_of(alloc, &self.facts, vars)?,
            bases: bases_at(alloc, &self.bases, vars)?,
        })
    }

    /// Learns what is known of the values that variables are bound to. Of a variable that comes after all values nothing is known.
    ///
    /// # Errors
    ///
    /// `Memory`: there is none for a note. This and the calls below then have noted some.
    pub fn learn(&mut self, vars: &[Var], values: Values) -> Result<(), Memory>
        ensures learned { OnOk result (known_in self.new ≡ learned_in (known_in self.old) vars.now (told values)) }
        ensures behind { OnOk result (taken_back (mark_of self.old) self.new ≡ self.old) }
    {
        let Values { known, bases } = values;
        learn_all(&mut self.facts, vars, known)?;
        learn_bases(&mut self.bases, vars, &bases)
    }

    /// Of the parameters of a loop the bases alone are known.
    ///
    /// # Errors
    ///
    /// `Memory`: there is none for a note.
    pub fn enter_loop(&mut self, alloc: Global, params: &[Var], start: &[Var]) -> Result<(), Memory>
        ensures learned { OnOk result (known_in self.new ≡ in_loop (known_in self.old) params.now start.now) }
        ensures behind { OnOk result (taken_back (mark_of self.old) self.new ≡ self.old) }
    {
        let bases = bases_at(alloc, &self.bases, start)?;
        forget(alloc, &mut self.facts, params)?;
        learn_bases(&mut self.bases, params, &bases)
    }

    /// The index of a generator and the names of its components are of numbers, and nothing else is known of them.
    ///
    /// # Errors
    ///
    /// `Memory`: there is none for a note.
    pub fn enter_gen(&mut self, alloc: Global, index: Var, names: &[Var]) -> Result<(), Memory>
        ensures learned { OnOk result (known_in self.new ≡ of_indices (known_in self.old) (index ∷ names.now)) }
        ensures behind { OnOk result (taken_back (mark_of self.old) self.new ≡ self.old) }
    {
        forget_index(alloc, &mut self.facts, index, names)?;
        self.bases.note(index, Some(Base::Int))?;
        learn_ints(&mut self.bases, names)?;
        Ok(())
    }

    /// The index of a part is a vector of as many numbers as the part's grid has axes.
    ///
    /// # Errors
    ///
    /// `Memory`: there is none for a note.
    pub fn enter_part(&mut self, alloc: Global, index: Var, grid: &Grid) -> Result<(), Memory>
        ensures learned { OnOk result (known_in self.new ≡ of_index (known_in self.old) index (length grid.now)) }
        ensures behind { OnOk result (taken_back (mark_of self.old) self.new ≡ self.old) }
    {
        learn_index(alloc, &mut self.facts, index, grid)?;
        self.bases.note(index, Some(Base::Int))
    }

    /// The shapes and the bases that the types of a function's parameters name.
    ///
    /// # Errors
    ///
    /// `Memory`: there is none for a note.
    pub fn enter_function(&mut self, params: &[(Var, ArrayType)]) -> Result<(), Memory>
        ensures facts { OnOk result ((known_in self.new).facts ≡ note_all (known_in self.old).facts (map (λ (p : Variable × TypeOf). p.0) params.now)
            (map (λ (p : Variable × TypeOf). shape_fact (shape_of_type p.1)) params.now)) }
        ensures bases { OnOk result ((known_in self.new).bases ≡ note_bases (known_in self.old).bases (map (λ (p : Variable × TypeOf). p.0) params.now)
            (map (λ (p : Variable × TypeOf). Some p.1.base) params.now)) }
    {
        for (x, ty) in params {
            self.facts
                .learn(*x, Known::of_shape(type_shape(&ty.part, &None)))?;
            self.bases.note(*x, Some(ty.base))?;
        }
        Ok(())
    }
}

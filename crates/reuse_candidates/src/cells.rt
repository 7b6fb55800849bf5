//! What is known of variables in the cells of a loop, which the end of a block takes back.

ghost use Rattle.std.specs.Prelude.{◌≡◌, ◌-◌, IfOk, OnOk, drop, length, map};
ghost use Rattle.core_loops.specs.Indices.{learn_index as learned_index};
ghost use Rattle.counted_code.specs.Pieces.{code_gen_term, code_part_term};
ghost use Rattle.counted_code.specs.Terms.{core_of_right};
ghost use Rattle.counted_code.specs.View.{code_right_term};
ghost use Rattle.fact_table.specs.Table.{fact_of, facts_of};
ghost use Rattle.index_table.specs.Table.{index_of, indices_of};
ghost use Rattle.reuse_candidates.specs.Cells.{cell_mark, in_gen, in_part, in_turn, known_in_cell, learned_in_cell, undone};

use crate::copies::core_right;
use crate::heads::forget_relations;
use core_ir::Var;
use counted_code::{CodeGen, CodeLet, CodePart};
use fact_table::{FactTable, Known};
use index_table::{IndexTable, Relation, learn_relation};
use plain_facts::{CalledShapes, forget, forget_index, learn_all, learn_index};
use sac_base::Memory;
use std::alloc::Global;

/// What is looked for: uses of an array, in cells whose index has so many components.
#[derive(Clone, Copy)]
pub struct Search<'a> {
    pub alloc: Global,
    pub array: Var,
    pub axes: usize,
    /// What calls give.
    pub called: &'a CalledShapes,
}

/// What is known of variables in a cell: their facts, and what they are beside the cell's index.
#[derive(Drop)]
pub struct CellScope {
    pub facts: FactTable,
    pub indices: IndexTable,
}

/// A place to go back to.
#[derive(Clone, Copy)]
pub struct CellMark {
    facts: usize,
    indices: usize,
}

impl CellScope {
    /// The place to go back to.
    pub fn mark(&self) -> CellMark
        ensures { result ≡ cell_mark self.now }
    {
        CellMark {
            facts: self.facts.mark(),
            indices: self.indices.mark(),
        }
    }

    /// Takes back what was learned since the mark.
    pub fn undo(&mut self, mark: CellMark)
        ensures { self.new ≡ undone mark self.old }
    {
        self.facts.undo(mark.facts);
        self.indices.undo(mark.indices);
    }

    /// Learns what a binding tells, of whose right side these values are known.
    ///
    /// # Errors
    ///
    /// `Memory`: there is none for a note. This and the calls below then have noted some.
    pub fn learn(
        &mut self,
        alloc: Global,
        binding: &CodeLet,
        axes: usize,
        values: Vec<Known>,
    ) -> Result<(), Memory>
        ensures learned { OnOk result (known_in_cell self.new ≡ learned_in_cell axes (known_in_cell self.old) binding.now.targets.items
            (core_of_right (code_right_term binding.now.right)) (map fact_of values.items)) }
        ensures behind { OnOk result (undone (cell_mark self.old) self.new ≡ self.old) }
    {
        self.learn_relation(alloc, binding, axes)?;
        learn_all(&mut self.facts, &binding.targets, values)
    }

    // What the targets are beside the index.
    fn learn_relation(
        &mut self,
        alloc: Global,
        binding: &CodeLet,
        axes: usize,
    ) -> Result<(), Memory>
        ensures facts { OnOk result (self.new.facts ≡ self.old.facts) }
        ensures learned { OnOk result (indices_of self.new.indices ≡ learned_index axes (indices_of self.old.indices) binding.now.targets.items
            (core_of_right (code_right_term binding.now.right)) (facts_of self.old.facts)) }
        ensures behind { OnOk result (drop (length self.new.indices - length self.old.indices) self.new.indices ≡ self.old.indices) }
    {
        let right = core_right(alloc, &binding.right)?;
        learn_relation(
            alloc,
            &binding.targets,
            &right,
            axes,
            &self.facts,
            &mut self.indices,
        )
    }

    /// Enters the blocks of a loop, in which nothing is known of its parameters. This and the two calls below give the place to go back to.
    ///
    /// # Errors
    ///
    /// `Memory`: there is none for a note.
    pub fn enter_turn(&mut self, alloc: Global, params: &[Var]) -> Result<CellMark, Memory>
        ensures learned { OnOk result (known_in_cell self.new ≡ in_turn (known_in_cell self.old) params.now) }
        ensures behind { IfOk result (λ before. undone before self.new ≡ self.old) }
    {
        let before = self.mark();
        forget(alloc, &mut self.facts, params)?;
        forget_relations(&mut self.indices, params)?;
        Ok(before)
    }

    /// Enters a generator's cell. Nothing is known of its index and of the names of the components.
    ///
    /// # Errors
    ///
    /// `Memory`: there is none for a note.
    pub fn enter_gen(&mut self, alloc: Global, generator: &CodeGen) -> Result<CellMark, Memory>
        ensures learned { OnOk result (known_in_cell self.new ≡ in_gen (known_in_cell self.old) (code_gen_term generator.now).head) }
        ensures behind { IfOk result (λ before. undone before self.new ≡ self.old) }
    {
        let before = self.mark();
        forget_index(alloc, &mut self.facts, generator.index, &generator.names)?;
        self.indices.learn(generator.index, Relation::Other)?;
        forget_relations(&mut self.indices, &generator.names)?;
        Ok(before)
    }

    /// Enters a part's cell, whose index is this beside the index that is looked for.
    ///
    /// # Errors
    ///
    /// `Memory`: there is none for a note.
    pub fn enter_part(
        &mut self,
        alloc: Global,
        part: &CodePart,
        relation: Relation,
    ) -> Result<CellMark, Memory>
        ensures learned { OnOk result (known_in_cell self.new ≡ in_part (known_in_cell self.old) (code_part_term part.now).head (index_of relation)) }
        ensures behind { IfOk result (λ before. undone before self.new ≡ self.old) }
    {
        let before = self.mark();
        learn_index(alloc, &mut self.facts, part.index, &part.grid)?;
        self.indices.learn(part.index, relation)?;
        Ok(before)
    }
}

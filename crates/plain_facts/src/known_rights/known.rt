//! Blocks and right sides with what is known of their values.

ghost use Rattle.std.specs.Prelude.{◌≡◌, [], ◌∷◌, IfOk, map};
ghost use Rattle.core_ir.specs.Terms.{RightTerm};
ghost use Rattle.core_ir.specs.View.{block_term, parted_term, right_term, with_term};
ghost use Rattle.core_facts.specs.Facts.{common_facts as common, shape_fact};
ghost use Rattle.fact_table.specs.Table.{fact_of, facts_of};
ghost use Rattle.plain_facts.specs.known_rights.Anywhere.{IsKnownAnywhere};
ghost use Rattle.plain_facts.specs.Called.{shapes_of};
ghost use Rattle.plain_facts.specs.Rights.{fact_of_right};

use crate::{CalledShapes, common_facts, parted_shape, plain_fact};
use core_ir::{Block, PartedLoop, Right, Var, WithLoop};
use fact_table::{FactTable, Known};
use sac_base::{Memory, Site};
use std::alloc::Global;

/// A block, and what is known of its results.
#[derive(Drop)]
pub struct KnownBlock {
    pub block: Block,
    pub results: Vec<Known>,
}

/// A right side, and what is known of its values.
#[derive(Drop)]
pub struct KnownRight {
    pub right: Right,
    pub values: Vec<Known>,
}

impl KnownRight {
    /// A right side of one value.
    ///
    /// # Errors
    ///
    /// `Memory`: there is none for the list.
    pub fn of_one(alloc: Global, right: Right, known: Known) -> Result<KnownRight, Memory>
        ensures right { IfOk result (λ new. right_term new.right ≡ right_term right) }
        ensures known { IfOk result (λ new. map fact_of new.values.items ≡ fact_of known ∷ []) }
    {
        let mut values = Vec::new(alloc);
        values.push(known)?;
        Ok(KnownRight { right, values })
    }

    /// A right side without blocks and calls.
    ///
    /// # Errors
    ///
    /// `Memory`: there is none for its literal value, or for the list.
    pub fn of_plain(alloc: Global, right: Right, table: &FactTable) -> Result<KnownRight, Memory>
        ensures right { IfOk result (λ new. right_term new.right ≡ right_term right) }
        ensures known { IfOk result (λ new. map fact_of new.values.items ≡ fact_of_right (right_term right) (facts_of table.now) ∷ []) }
    {
        let known = plain_fact(alloc, &right, table)?;
        KnownRight::of_one(alloc, right, known)
    }

    /// A conditional. Of its values the shapes are known that both blocks' results have.
    ///
    /// # Errors
    ///
    /// `Memory`: there is none for the list.
    pub fn of_if(
        alloc: Global,
        cond: Var,
        yes: KnownBlock,
        no: KnownBlock,
    ) -> Result<KnownRight, Memory>
        ensures right { IfOk result (λ new. right_term new.right ≡ RightTerm.If cond (block_term yes.block) (block_term no.block)) }
        ensures known { IfOk result (λ new. map fact_of new.values.items ≡ common (map fact_of yes.results.items) (map fact_of no.results.items)) }
    {
        let values = common_facts(alloc, &yes.results, &no.results)?;
        Ok(KnownRight {
            right: Right::If {
                cond,
                yes: yes.block,
                no: no.block,
            },
            values,
        })
    }

    /// A loop, of whose values nothing is known.
    pub fn of_loop(
        alloc: Global,
        first_body: bool,
        start: Vec<Var>,
        params: Vec<Var>,
        test: Block,
        body: Block,
        test_site: Site,
    ) -> KnownRight
        ensures right { right_term result.right ≡ RightTerm.Loop first_body start.items params.items (block_term test) (block_term body) test_site }
        ensures known { map fact_of result.values.items ≡ [] }
    {
        KnownRight {
            right: Right::Loop {
                first_body,
                start,
                params,
                test,
                body,
                test_site,
            },
            values: Vec::new(alloc),
        }
    }

    /// A call. Of its values the shapes are known that the results of all instances have.
    ///
    /// # Errors
    ///
    /// `Memory`: there is none for the list.
    pub fn of_call(
        alloc: Global,
        group: u32,
        args: Vec<Var>,
        called: &CalledShapes,
    ) -> Result<KnownRight, Memory>
        ensures right { IfOk result (λ new. right_term new.right ≡ RightTerm.Call group args.items) }
        ensures known { IfOk result (λ new. map fact_of new.values.items ≡ map shape_fact (shapes_of called.now group)) }
    {
        let values = called.facts(alloc, group)?;
        Ok(KnownRight {
            right: Right::Call { group, args },
            values,
        })
    }

    /// A with-loop, of whose value nothing is known.
    pub fn of_with(alloc: Global, with: WithLoop) -> KnownRight
        ensures right { right_term result.right ≡ with_term with }
        ensures known { map fact_of result.values.items ≡ [] }
    {
        KnownRight {
            right: Right::With(with),
            values: Vec::new(alloc),
        }
    }

    /// A parted loop. Of its value the shape is known that its frame and its cells tell, if an array may have it.
    ///
    /// # Errors
    ///
    /// `Memory`: there is none for the list.
    pub fn of_parted(alloc: Global, parted: PartedLoop) -> Result<KnownRight, Memory>
        ensures right { IfOk result (λ new. right_term new.right ≡ parted_term parted) }
        ensures known { IfOk result (λ new. IsKnownAnywhere (right_term new.right) (map fact_of new.values.items)) }
    {
        let shape = parted_shape(alloc, &parted.frame, &parted.cell, parted.op);
        KnownRight::of_one(alloc, Right::Parted(parted), Known::of_shape(shape))
    }
}

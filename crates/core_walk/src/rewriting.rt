//! What a pass does at one place.

ghost use Rattle.std.specs.Prelude.{◌≡◌, ◌++◌, ℕ, List, Option, IfOk, OnOk, map};
ghost use Rattle.sac_base.specs.declared.site.Site.{Site as SiteOf};
ghost use Rattle.core_ir.specs.declared.tree.Var.{Var as Variable};
ghost use Rattle.core_ir.specs.Terms.{BlockTerm, LetTerm, RightTerm};
ghost use Rattle.core_ir.specs.View.{block_term, let_term, right_term};
ghost use Rattle.core_facts.specs.Facts.{Fact, Facts};
ghost use Rattle.fact_table.specs.Table.{fact_of, facts_of};
ghost use Rattle.plain_facts.specs.Called.{shapes_of};

use core_ir::{Let, Var};
use fact_table::FactTable;
use plain_facts::CalledShapes;
use plain_facts::known_rights::{KnownBlock, KnownRight};
use sac_base::{Memory, Site};
use std::alloc::Global;

/// Where a right side stands: the variables that it is bound to, and its site.
#[derive(Clone, Copy)]
pub struct Place<'a> {
    pub targets: &'a [Var],
    pub site: Site,
}

/// What a pass does with right sides and blocks, each when those inside have been walked through.
pub trait Rewriting {
    /// What it counts, as the number of the next new variable.
    type Progress;

    /// The known shapes of the results of calls.
    ghost called: { Self → ℕ → List (Option (List ℕ)) };

    /// What becomes of a right side, with what is known before it and of its values, and which bindings come before it.
    ghost step: { Self → Facts → Self.Progress → Self.Progress → List Variable → SiteOf → RightTerm → List Fact → List LetTerm → RightTerm → List Fact
        → Type 0 };

    /// What becomes of a block, with what is known before it and of its results.
    ghost finish: { Self → Facts → Self.Progress → Self.Progress → BlockTerm → List Fact → BlockTerm → List Fact → Type 0 };

    /// The known shapes of the results of calls.
    fn called(&self) -> &CalledShapes
        ensures { shapes_of result.now ≡ called self.now };

    /// Changes a right side whose blocks have been walked through. Bindings that come before it are put behind those that are done.
    ///
    /// # Errors
    ///
    /// `Memory`: there is none for what is made.
    fn right(
        &self,
        alloc: Global,
        place: Place<'_>,
        known: KnownRight,
        table: &mut FactTable,
        progress: &mut Self::Progress,
        done: &mut Vec<Let>,
    ) -> Result<KnownRight, Memory>
        ensures step { IfOk result (λ new. (ms : List LetTerm) × (map let_term done.new.items ≡ map let_term done.old.items ++ ms)
            × step self.now (facts_of table.old) progress.old progress.new place.entry.targets.now place.entry.site (right_term known.right)
            (map fact_of known.values.items) ms (right_term new.right) (map fact_of new.values.items)) }
        ensures table { OnOk result (table.new ≡ table.old) };

    /// Changes a block whose bindings have been walked through. The table has what is known before it.
    ///
    /// # Errors
    ///
    /// `Memory`: there is none for what is made.
    fn block(
        &self,
        alloc: Global,
        known: KnownBlock,
        table: &mut FactTable,
        progress: &mut Self::Progress,
    ) -> Result<KnownBlock, Memory>
        ensures finish { IfOk result (λ new. finish self.now (facts_of table.old) progress.old progress.new (block_term known.block)
            (map fact_of known.results.items) (block_term new.block) (map fact_of new.results.items)) }
        ensures table { OnOk result (table.new ≡ table.old) };
}

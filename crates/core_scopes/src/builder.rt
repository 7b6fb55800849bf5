//! Bindings of the core that are made one after another.

ghost use Rattle.std.specs.Prelude.{◌≡◌, [], ◌∷◌, IfOk, OnOk};
ghost use Rattle.core_ir.specs.Terms.{Gives, chain};
ghost use Rattle.core_ir.specs.View.{block_term, right_term};
ghost use Rattle.core_lowering.specs.steps.Building.{Built, bound_at, fresh_at, nested, resumed, with_let};
ghost use Rattle.core_scopes.specs.Built.{built, made};

use core_ir::{Block, Let, Right, Var};
use sac_base::{Memory, Site};
use std::alloc::Global;

/// The bindings that are made, and the number of the next variable.
#[derive(Drop)]
pub struct Builder {
    lets: Vec<Let>,
    next: u64,
}

impl Builder {
    pub fn new(alloc: Global) -> Builder
        ensures { built result ≡ record { lets = []; next = 0 } }
    {
        Builder {
            lets: Vec::new(alloc),
            next: 0,
        }
    }

    /// A new variable. Where there is no more number of 32 bits, memory is wanting.
    pub fn fresh(&mut self) -> Result<Var, Memory>
        ensures { IfOk result (λ x. made (built self.new) x ≡ fresh_at (built self.old)) }
    {
        match u32::try_from(self.next) {
            Ok(number) => {
                self.next = u64::from(number) + 1;
                Ok(Var(number))
            }
            Err(_) => Err(Memory),
        }
    }

    /// Binds variables.
    pub fn push(&mut self, targets: Vec<Var>, site: Site, right: Right) -> Result<(), Memory>
        ensures { OnOk result (built self.new ≡ with_let (built self.old) targets.items site (right_term right)) }
    {
        self.lets.push(Let {
            targets,
            site,
            right,
        })?;
        Ok(())
    }

    /// Binds a new variable.
    pub fn bind(&mut self, alloc: Global, site: Site, right: Right) -> Result<Var, Memory>
        ensures { IfOk result (λ x. made (built self.new) x ≡ bound_at (built self.old) site (right_term right)) }
    {
        let (var, targets) = self.fresh_target(alloc)?;
        self.push(targets, site, right)?;
        Ok(var)
    }

    // A new variable, and the list of it alone.
    fn fresh_target(&mut self, alloc: Global) -> Result<(Var, Vec<Var>), Memory>
        ensures var { IfOk result (λ x. made (built self.new) x.0 ≡ fresh_at (built self.old)) }
        ensures targets { IfOk result (λ x. x.1.items ≡ x.0 ∷ []) }
    {
        let var = self.fresh()?;
        let targets = Vec::from_slice(alloc, &[var])?;
        Ok((var, targets))
    }

    /// No bindings, with new variables from here on.
    pub fn nested(&self, alloc: Global) -> Builder
        ensures { built result ≡ nested (built self.now) }
    {
        Builder {
            lets: Vec::new(alloc),
            next: self.next,
        }
    }

    /// Goes on with the variables after those of another.
    pub fn resume(&mut self, other: &Builder)
        ensures { built self.new ≡ resumed (built self.old) (built other.now) }
    {
        self.next = other.next;
    }

    /// The block of the bindings, which gives these variables.
    pub fn finish(self, results: Vec<Var>) -> Block
        ensures { block_term result ≡ chain (built self).lets (Gives results.items) }
    {
        let Builder { lets, .. } = self;
        Block { lets, results }
    }
}

//! Programs that are accepted.

ghost use Rattle.std.specs.Prelude.{◌≡◌};
ghost use Rattle.std.proofs.Props.{props};
ghost use Rattle.sac_ast.specs.View;
ghost use Rattle.check_rules.specs.Accepted.{IsAccepted};

use sac_ast::Program;
use sac_base::Base;

/// A program in which no rule is violated.
#[derive(Drop)]
pub struct Checked {
    pub program: Program,
    pub main_bases: Vec<Base>,
    ghost accepted: { IsAccepted (View.program program) } by { Prim.hlevel props },
}

impl Checked {
    pub fn program(&self) -> &Program
        ensures { result.now ≡ self.now.program }
    {
        &self.program
    }

    /// The bases of the parameters of `main`.
    pub fn main_bases(&self) -> &[Base]
        ensures { result.now ≡ self.now.main_bases.items }
    {
        &self.main_bases
    }
}

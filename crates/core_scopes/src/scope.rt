//! The variables of names.

ghost use Rattle.std.specs.Prelude.{◌≡◌, IfOk, OnOk};
ghost use Rattle.core_lowering.specs.steps.Building.{declared};
ghost use Rattle.core_lowering.specs.steps.Looks.{unbound, vars_of, with_var};
ghost use Rattle.core_scopes.specs.Looks.{look, own, texts};
ghost use Rattle.core_scopes.specs.Built.{built, made_names};

use crate::builder::Builder;
use core_ir::Var;
use indexmap::IndexMap;
use sac_base::Memory;
use std::alloc::Global;

/// The variables that names have: those of this scope, and behind them those of the scope around it.
#[derive(Drop)]
pub struct Scope<'a> {
    outer: Option<&'a Scope<'a>>,
    vars: IndexMap<String, Var>,
}

impl<'a> Scope<'a> {
    pub fn new(alloc: Global) -> Scope<'a>
        ensures { look result ≡ unbound }
    {
        Scope {
            outer: None,
            vars: IndexMap::new(alloc),
        }
    }

    /// A scope inside this one.
    pub fn inside(&'a self, alloc: Global) -> Scope<'a>
        ensures { look result ≡ look self.now }
    {
        Scope {
            outer: Some(self),
            vars: IndexMap::new(alloc),
        }
    }

    pub fn find(&self, name: &str) -> Option<Var>
        ensures { result ≡ look self.now name.now }
    {
        match self.vars.get(name) {
            Some(var) => Some(*var),
            None => match self.outer {
                Some(outer) => outer.find(name),
                None => None,
            },
        }
    }

    /// Binds a name to a variable.
    pub fn bind(&mut self, alloc: Global, name: &str, var: Var) -> Result<(), Memory>
        ensures { OnOk result (look self.new ≡ with_var name.now var (look self.old)) }
    {
        bind_in(&mut self.vars, alloc, name, var)
    }

    /// The variables of names; the first variable stands for that of a name that has none.
    pub fn vars(&self, alloc: Global, names: &[&str]) -> Result<Vec<Var>, Memory>
        ensures { IfOk result (λ v. v.items ≡ vars_of (look self.now) (texts names.now)) }
    {
        let mut vars = Vec::new(alloc);
        for name in names {
            vars.push(self.find(name).unwrap_or(Var(0)))?;
        }
        Ok(vars)
    }

    /// Binds names to new variables, one after another.
    pub fn declare(
        &mut self,
        alloc: Global,
        names: &[&str],
        out: &mut Builder,
    ) -> Result<Vec<Var>, Memory>
        ensures { IfOk result (λ v. made_names (built out.new) v.items (look self.new) ≡ declared (texts names.now) (look self.old) (built out.old)) }
    {
        let mut vars = Vec::new(alloc);
        for name in names {
            let var = out.fresh()?;
            self.bind(alloc, name, var)?;
            vars.push(var)?;
        }
        Ok(vars)
    }
}

fn bind_in(
    vars: &mut IndexMap<String, Var>,
    alloc: Global,
    name: &str,
    var: Var,
) -> Result<(), Memory>
    ensures { OnOk result (own vars.new ≡ with_var name.now var (own vars.old)) }
{
    let key = String::from_str(alloc, name)?;
    vars.insert(key, var)?;
    Ok(())
}

//! The names that are bound in a function, with what they are bound to.

ghost use Rattle.std.specs.Prelude.{◌≡◌, ◌++◌, [], ◌∷◌, OnOk, OnErr};
ghost use Rattle.std.proofs.Props.{props};
ghost use Rattle.sac_ast.specs.Bases;
ghost use Rattle.check_rules.specs.Accepted.{bind as bind_name};
ghost use Rattle.check_rules.specs.Tables.{entered};
ghost use Rattle.sac_bases.specs.Tables.{HasFirst};

use indexmap::IndexMap;
use sac_ast::Known;
use sac_base::{Base, Memory, Name, copy_name};
use std::alloc::Global;

/// The bindings of names, in the order in which they were made. The first binding of a name counts.
#[derive(Drop)]
pub struct BoundNames<'a> {
    pub all: Vec<Known>,
    bases: IndexMap<&'a str, Option<Base>>,
    ghost first: { HasFirst all.items bases } by { Prim.hlevel props },
}

impl<'a> BoundNames<'a> {
    pub fn new(alloc: Global) -> Self
        ensures { result.all.items ≡ [] }
    {
        BoundNames {
            all: Vec::new(alloc),
            bases: IndexMap::new(alloc),
        }
    }

    /// The base of what a name is bound to, where it is bound and that has one.
    pub fn base_of(&self, name: &str) -> Option<Base>
        ensures { result ≡ Bases.base_of_name self.now.all.items name.now }
    {
        match self.bases.get(name) {
            None => None,
            Some(base) => *base,
        }
    }

    /// Binds a name to a value of this base.
    pub fn bind(&mut self, name: &'a Name, base: Option<Base>) -> Result<(), Memory>
        ensures { OnOk result (self.new.all.items ≡ self.old.all.items ++ record { name = name.now; base = base } ∷ []) }
    {
        let known = Known {
            name: copy_name(name)?,
            base,
        };
        self.all.reserve(1)?;
        enter(&mut self.bases, name, base)?;
        self.all.push(known)?;
        Ok(())
    }
}

// Enters the base of a name that has none yet.
fn enter<'a>(
    bases: &mut IndexMap<&'a str, Option<Base>>,
    name: &'a Name,
    base: Option<Base>,
) -> Result<(), Memory>
    ensures entered { OnOk result (entered bases.new ≡ bind_name name.now base (entered bases.old)) }
    ensures unchanged { OnErr result (entered bases.new ≡ entered bases.old) }
{
    let text = name.as_str();
    if bases.get(text).is_none() {
        bases.insert(text, base)?;
    }
    Ok(())
}

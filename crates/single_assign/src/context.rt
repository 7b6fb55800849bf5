//! What is known of the program and of the function that is lowered.

ghost use Rattle.std.specs.Prelude.{◌≡◌, IfOk};
ghost use Rattle.sac_ast.specs.View.{generators};
ghost use Rattle.source_meaning.specs.Meaning.{default_base as default_base_value, or_int as or_int_value};
ghost use Rattle.single_assign.specs.Views.{base_of_in, group_in, name_base_in, place_by};

use check_rules::functions::Functions;
use indexmap::IndexSet;
use sac_ast::Generator;
use sac_base::{Base, Memory, Name};
use sac_bases::{BoundNames, base_of};
use std::alloc::Global;

#[derive(Clone, Copy)]
pub struct Context<'a> {
    pub alloc: Global,
    pub functions: &'a Functions<'a>,
    /// The names of functions, in the order of their groups.
    pub names: &'a IndexSet<&'a str>,
    /// What the names of the function are bound to.
    pub known: &'a BoundNames<'a>,
}

impl Context<'_> {
    /// The number of a name's group. Where it has no 32 bits, memory is wanting.
    pub fn group_of(&self, name: &Name) -> Result<u32, Memory>
        ensures { IfOk result (λ group. group ≡ group_in self.now name.now) }
    {
        match u32::try_from(place_of(self.names, name)) {
            Ok(group) => Ok(group),
            Err(_) => Err(Memory),
        }
    }

    /// The base of a name; one that is missing is int.
    pub fn base_of_name(&self, name: &str) -> Base
        ensures { result ≡ name_base_in self.now name.now }
    {
        or_int(self.known.base_of(name))
    }

    /// The base of the cells that a genarray without a default has.
    pub fn default_base(&self, gs: &[Generator]) -> Result<Base, Memory>
        ensures { IfOk result (λ base. base ≡ default_base_value (base_of_in self.now) (generators gs.now)) }
    {
        match gs.first() {
            None => Ok(Base::Int),
            Some(g) => {
                let base = base_of(&g.cell, self.alloc, self.functions, self.known)?;
                Ok(or_int(base))
            }
        }
    }
}

// A base that is missing is int.
fn or_int(base: Option<Base>) -> Base
    ensures { result ≡ or_int_value base }
{
    match base {
        None => Base::Int,
        Some(base) => base,
    }
}

// The place of a name in a set, or the number of names.
fn place_of(names: &IndexSet<&str>, name: &Name) -> usize
    ensures { result ≡ place_by names.now name.now }
{
    match names.get_index_of(name.as_str()) {
        Some(place) => place,
        None => names.len(),
    }
}

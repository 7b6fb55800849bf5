//! How large functions are.

ghost use Rattle.std.specs.Prelude.{◌≡◌, ℕ, IfOk, IfSome, set};
ghost use Rattle.std.proofs.Props.{props};
ghost use Rattle.core_ir.specs.Terms.{FunTerm};
ghost use Rattle.core_ir.specs.View.{core_term, fun_term};
ghost use Rattle.core_forms.specs.inlined_bodies.Inlining.{IsInstance};
ghost use Rattle.inline_calls.specs.Measures.{IsSize, AreSizes};

use core_ir::{Core, CoreFun, nodes};
use core_subst::fresh;
use sac_base::Memory;
use std::alloc::Global;

/// The least number above those of all variables.
const ABOVE_ALL: u64 = 4_294_967_296;

/// How large a function is: how many bindings stand in the place of a call of it, and the least number above those of its variables.
#[derive(Clone, Copy)]
pub struct Size {
    pub weight: u64,
    pub above: u64,
}

/// A core, with the sizes of its functions.
#[derive(Drop)]
pub struct Measured<'a> {
    pub core: &'a Core,
    sizes: &'a Vec<Size>,
    ghost sized: { AreSizes (core_term core.now) sizes.now.items } by { Prim.hlevel props },
}

impl<'a> Measured<'a> {
    pub fn new(core: &'a Core, sizes: &'a Vec<Size>) -> Self
        requires { AreSizes (core_term core.now) sizes.now.items }
        ensures { result.core.now ≡ core.now }
    {
        Measured { core, sizes }
    }

    /// The size of the only instance of a group.
    pub fn size_in(&self, group: u32) -> Option<Size>
        ensures { (place : ℕ) (f : FunTerm) → IsInstance (core_term self.now.core.now) group place f → IfSome result (λ s. IsSize f s) }
    {
        let places = self.core.groups.get(group as usize)?;
        let place = places.get(0)?;
        let size = self.sizes.get(*place as usize)?;
        Some(*size)
    }
}

/// The size of a function.
pub fn size_of(function: &CoreFun) -> Size
    ensures { IsSize (fun_term function.now) result }
{
    let weight = nodes(&function.body)
        .saturating_add(function.params.len() as u64)
        .saturating_add(function.results.len() as u64);
    let above = match fresh(function) {
        Some(new) => u64::from(new.0),
        None => ABOVE_ALL,
    };
    Size { weight, above }
}

/// The sizes of the functions of a core.
pub fn sizes_of(alloc: Global, core: &Core) -> Result<Vec<Size>, Memory>
    ensures { IfOk result (λ v. AreSizes (core_term core.now) v.items) }
{
    let mut sizes = Vec::new(alloc);
    for k in 0..core.functions.len() {
        sizes.push(size_of(&core.functions[k]))?;
    }
    Ok(sizes)
}

/// Notes the size of the function at a place.
pub fn note_size(sizes: &mut Vec<Size>, place: usize, size: Size)
    ensures { sizes.new.items ≡ set sizes.old.items place size }
{
    if place < sizes.len() {
        sizes[place] = size;
    }
}

//! Lists of variables. As references, a variable stands in a list once for each of them.

ghost use Rattle.std.specs.Prelude.{◌≡◌, ◌++◌, List, IfOk, IsTrue};
ghost use Rattle.core_ir.specs.declared.tree.Var.{Var};
ghost use Rattle.core_ir.specs.Binders.{is_in, NoneIn};
ghost use Rattle.core_ir.specs.Scopes.{AllIn};
ghost use Rattle.core_ir.specs.WellFormed.{Distinct};
ghost use Rattle.counted_code.specs.Counts.{Reordered};
ghost use Rattle.counted_laws.specs.placing.Placing.{without};

use core_ir::Var;
use sac_base::Memory;
use std::alloc::Global;

/// Whether the variable stands in the list.
pub fn stands_in(xs: &[Var], x: Var) -> bool
    ensures { result ≡ is_in x xs.now }
{
    for y in xs {
        if y.0 == x.0 {
            return true;
        }
    }
    false
}

/// Whether the variable stands in one of the lists.
pub fn stands_in_either(first: &[Var], second: &[Var], x: Var) -> bool
    ensures { result ≡ is_in x (first.now ++ second.now) }
{
    stands_in(first, x) || stands_in(second, x)
}

/// Whether each of the variables stands in the scope.
pub fn all_in(xs: &[Var], scope: &[Var]) -> bool
    ensures inside { IsTrue result → AllIn xs.now scope.now }
    ensures converse { AllIn xs.now scope.now → IsTrue result }
{
    for x in xs {
        if !stands_in(scope, *x) {
            return false;
        }
    }
    true
}

/// Whether none of the variables stands in the scope.
pub fn none_in(xs: &[Var], scope: &[Var]) -> bool
    ensures outside { IsTrue result → NoneIn xs.now scope.now }
    ensures converse { NoneIn xs.now scope.now → IsTrue result }
{
    for x in xs {
        if stands_in(scope, *x) {
            return false;
        }
    }
    true
}

/// Whether the variables differ, and none stands in the scope.
pub fn are_new(xs: &[Var], scope: &[Var]) -> bool
    ensures distinct { IsTrue result → Distinct xs.now }
    ensures outside { IsTrue result → NoneIn xs.now scope.now }
    ensures converse { Distinct xs.now → NoneIn xs.now scope.now → IsTrue result }
{
    for place in 0..xs.len() {
        if stands_in(&xs[place + 1..], xs[place]) || stands_in(scope, xs[place]) {
            return false;
        }
    }
    true
}

/// One list after the other.
pub fn joined(alloc: Global, first: &[Var], second: &[Var]) -> Result<Vec<Var>, Memory>
    ensures { IfOk result (λ all. all.items ≡ first.now ++ second.now) }
{
    let mut all = Vec::from_slice(alloc, first)?;
    all.extend_from_slice(second)?;
    Ok(all)
}

/// Takes the first place of the variable out of the list, and says whether there was one.
pub fn take_out(xs: &mut Vec<Var>, x: Var) -> bool
    ensures was_there { result ≡ is_in x xs.old.items }
    ensures rest { xs.new.items ≡ without x xs.old.items }
{
    for place in 0..xs.len() {
        if xs[place].0 == x.0 {
            xs.remove(place);
            return true;
        }
    }
    false
}

/// Takes a reference of each variable out of the list, and says whether all were there.
pub fn take_all(refs: &mut Vec<Var>, xs: &[Var]) -> bool
    ensures taken { IsTrue result → Reordered refs.old.items (xs.now ++ refs.new.items) }
    ensures converse { (rest : List Var) → Reordered refs.old.items (xs.now ++ rest) → IsTrue result × Reordered rest refs.new.items }
{
    for x in xs {
        if !take_out(refs, *x) {
            return false;
        }
    }
    true
}

/// Whether the references are those of the second list, in any order.
pub fn are_same(refs: Vec<Var>, own: &[Var]) -> bool
    ensures same { IsTrue result → Reordered own.now refs.items }
    ensures converse { Reordered own.now refs.items → IsTrue result }
{
    let mut refs = refs;
    if !take_all(&mut refs, own) {
        return false;
    }
    refs.is_empty()
}

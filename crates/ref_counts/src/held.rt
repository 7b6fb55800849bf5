//! The variables whose references a block has at a place.

ghost use Rattle.std.specs.Prelude.{◌≡◌, ◌∷◌, ◌++◌, List, take, IfOk};
ghost use Rattle.ref_rules.specs.listed_uses.Latest.{IsLast};
ghost use Rattle.ref_rules.specs.declared.listed_uses.list.Entry.{Entry as Listed};
ghost use Rattle.ref_counts.specs.Owning.{owned_vars, IsSound, IsBound, EndsOf, ends};

use core_ir::Var;
use ref_rules::listed_uses::Uses;
use sac_base::Memory;
use std::alloc::Global;

/// Variables in an order, as a tree, each with the place behind its last use in the block. A fork says before which place each of its variables is used
/// once more, so those that are used no more are found without a walk over the others. What was taken out leaves its place, so the depth is the
/// logarithm of the number of variables that were put in.
#[derive(Drop)]
pub enum Owned {
    Gone,
    One(Var, usize),
    Fork {
        leaves: usize,
        used_before: usize,
        first: Box<Owned>,
        second: Box<Owned>,
    },
}

/// The leaves of the tree, or `usize::MAX` where there are more.
fn count_leaves(tree: &Owned) -> usize {
    match tree {
        Owned::Fork { leaves, .. } => *leaves,
        _ => 1,
    }
}

/// A place before which each of the variables is used at that place or later.
fn bound_of(tree: &Owned) -> usize
    ensures { (es : List Listed) → IsSound es tree.now → IsBound es (owned_vars tree.now) result }
{
    match tree {
        Owned::Gone => usize::MAX,
        Owned::One(_, behind) => *behind,
        Owned::Fork { used_before, .. } => *used_before,
    }
}

/// The variables of the first tree, then those of the second.
fn fork(alloc: Global, first: Owned, second: Owned) -> Result<Owned, Memory>
    ensures vars { IfOk result (λ t. owned_vars t ≡ owned_vars first ++ owned_vars second) }
    ensures sound { (es : List Listed) → IsSound es first → IsSound es second → IfOk result (λ t. IsSound es t) }
{
    let leaves = count_leaves(&first).saturating_add(count_leaves(&second));
    let used_before = bound_of(&first).min(bound_of(&second));
    Ok(Owned::Fork {
        leaves,
        used_before,
        first: Box::new(alloc, first)?,
        second: Box::new(alloc, second)?,
    })
}

/// The tree with one variable more, before the others.
fn with_front(alloc: Global, tree: Owned, x: Var, behind: usize) -> Result<Owned, Memory>
    ensures vars { IfOk result (λ t. owned_vars t ≡ x ∷ owned_vars tree) }
    ensures sound { (es : List Listed) → IsLast es x behind → IsSound es tree → IfOk result (λ t. IsSound es t) }
{
    match tree {
        Owned::Gone => fork(alloc, Owned::One(x, behind), Owned::Gone),
        Owned::One(y, place) => fork(alloc, Owned::One(x, behind), Owned::One(y, place)),
        Owned::Fork {
            leaves,
            used_before,
            first,
            second,
        } => {
            if count_leaves(&first) < count_leaves(&second) {
                let first = with_front(alloc, Box::into_inner(first), x, behind)?;
                return fork(alloc, first, Box::into_inner(second));
            }
            let tree = Owned::Fork {
                leaves,
                used_before,
                first,
                second,
            };
            fork(alloc, Owned::One(x, behind), tree)
        }
    }
}

/// The tree with more variables, before the others, for a block whose uses stand before `end`.
pub fn with_all(
    alloc: Global,
    tree: Owned,
    uses: &Uses,
    end: usize,
    xs: &[Var],
) -> Result<Owned, Memory>
    ensures vars { IfOk result (λ t. owned_vars t ≡ xs.now ++ owned_vars tree) }
    ensures sound { IsSound (take end uses.now) tree → IfOk result (λ t. IsSound (take end uses.now) t) }
{
    let mut tree = tree;
    let mut left = xs.len();
    while left > 0 {
        left -= 1;
        let x = xs[left];
        tree = with_front(alloc, tree, x, uses.used_before(end, x))?;
    }
    Ok(tree)
}

/// Takes the variables out of the tree that are not used at this place or later, and appends them to `out`.
pub fn take_unused(
    alloc: Global,
    tree: Owned,
    from: usize,
    out: &mut Vec<Var>,
) -> Result<Owned, Memory>
    ensures { (es : List Listed) → IsSound es tree → IfOk result (λ t. EndsOf es (ends es from) tree t out.old.items out.new.items) }
{
    match tree {
        Owned::Gone => Ok(Owned::Gone),
        Owned::One(x, behind) => {
            if from < behind {
                return Ok(Owned::One(x, behind));
            }
            out.push(x)?;
            Ok(Owned::Gone)
        }
        Owned::Fork {
            leaves,
            used_before,
            first,
            second,
        } => {
            if from < used_before {
                return Ok(Owned::Fork {
                    leaves,
                    used_before,
                    first,
                    second,
                });
            }
            let first = take_unused(alloc, Box::into_inner(first), from, out)?;
            let second = take_unused(alloc, Box::into_inner(second), from, out)?;
            fork(alloc, first, second)
        }
    }
}

/// Appends the variables of the tree.
pub fn add_vars(tree: &Owned, out: &mut Vec<Var>) -> Result<(), Memory>
    ensures { IfOk result (λ done. out.new.items ≡ out.old.items ++ owned_vars tree.now) }
{
    match tree {
        Owned::Gone => Ok(()),
        Owned::One(x, _) => {
            out.push(*x)?;
            Ok(())
        }
        Owned::Fork { first, second, .. } => {
            add_vars(first, out)?;
            add_vars(second, out)
        }
    }
}

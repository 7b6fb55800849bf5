//! The bodies of merged parts.

ghost use Rattle.std.specs.Prelude.{◌≡◌, ◌+◌, ◌≤◌, ◌++◌, [], ◌∷◌, suc, IfOk, OnOk, map, length, take, drop};
ghost use Rattle.core_ir.specs.declared.tree.Var.{Var as Variable};
ghost use Rattle.core_ir.specs.Binders.{bound_in as binders_of};
ghost use Rattle.core_ir.specs.Terms.{LetTerm, PlainTerm, Plain, chain};
ghost use Rattle.core_ir.specs.View.{block_term, let_term};
ghost use Rattle.core_subst.specs.copy.Mapped.{mapped};
ghost use Rattle.merge_plans.specs.Openings.{lets_of};
ghost use Rattle.merged_parts.specs.Merging.{merged_names};
ghost use Rattle.parted_bodies.specs.Numbering.{named_in};

use crate::indices::{Components, row};
use core_ir::{Block, Var};
use parted_bodies::{Names, Progress, bound_in, copy_block};
use sac_base::{Memory, Site};
use std::alloc::Global;

/// New variables for two indices, and for what the bindings around an inner loop and the body of an inner part bind.
///
/// # Errors
///
/// `Memory`: there is none for the names, or the numbers of variables have more than 32 bits.
pub fn names_for(
    alloc: Global,
    outer: Var,
    inner: Var,
    around: &Block,
    body: &Block,
    progress: &mut Progress,
) -> Result<Names, Memory>
    ensures names { IfOk result (λ names. (z : Variable) → named_in names z
        ≡ merged_names outer inner (chain (lets_of (block_term around.now)) (block_term body.now)) progress.old.next z) }
    ensures next { OnOk result (progress.new ≡ record progress.old {
      next = progress.old.next + suc (suc (length (binders_of (chain (lets_of (block_term around.now)) (block_term body.now)))));
    }) }
{
    let mut vars = Vec::new(alloc);
    vars.push(outer)?;
    vars.push(inner)?;
    vars.extend_from_slice(&bound_in(alloc, around)?)?;
    vars.extend_from_slice(&bound_in(alloc, body)?)?;
    let mut names = Names::new(alloc);
    names.set_all(&vars, progress)?;
    Ok(names)
}

/// The two old indices, made of the components of a new one, of which the first `axes` are those of the outer index.
///
/// # Errors
///
/// `Memory`: there is none for the bindings.
pub fn with_indices(
    alloc: Global,
    components: Components,
    axes: usize,
    outer: Var,
    inner: Var,
    site: Site,
) -> Result<Components, Memory>
    requires few { axes ≤ length components.vars.items }
    ensures { IfOk result (λ c. map let_term c.lets.items ≡ map let_term components.lets.items
        ++ (record { targets = outer ∷ []; site = site; right = Plain (PlainTerm.Literal (take axes components.vars.items)) }
        ∷ record { targets = inner ∷ []; site = site; right = Plain (PlainTerm.Literal (drop axes components.vars.items)) } ∷ [])) }
{
    let Components { mut lets, vars } = components;
    lets.push(row(alloc, outer, site, &vars[..axes])?)?;
    lets.push(row(alloc, inner, site, &vars[axes..])?)?;
    Ok(Components { lets, vars })
}

/// Copies of the bindings around an inner loop and of the body of an inner part, behind other bindings.
///
/// # Errors
///
/// `Memory`: there is none for the copies.
pub fn body_behind(
    alloc: Global,
    before: Components,
    around: &Block,
    body: &Block,
    names: &Names,
) -> Result<Block, Memory>
    ensures { IfOk result (λ b. block_term b ≡ chain (map let_term before.lets.items)
        (mapped (named_in names.now) (chain (lets_of (block_term around.now)) (block_term body.now)))) }
{
    let mut lets = before.lets;
    let Block {
        lets: mut outer,
        ..
    } = copy_block(alloc, around, names)?;
    lets.append(&mut outer)?;
    let Block {
        lets: mut inner,
        results,
    } = copy_block(alloc, body, names)?;
    lets.append(&mut inner)?;
    Ok(Block { lets, results })
}

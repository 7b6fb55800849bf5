//! The variables that a block binds.

ghost use Rattle.std.specs.Prelude.{◌≡◌, ◌++◌, [], ◌∷◌, IfOk, OnOk};
ghost use Rattle.core_ir.specs.View.{block_term, right_term, with_term, gen_term, parted_term, part_term};
ghost use Rattle.core_ir.specs.Binders.{bound_in as binders_of, bound_in_right};
ghost use Rattle.core_subst.specs.Names.{index_names};

use core_ir::{Block, CoreGen, CorePart, PartedLoop, Right, Var, WithLoop};
use sac_base::Memory;
use std::alloc::Global;

/// The variables that a block binds, those of nested blocks included.
///
/// # Errors
///
/// `Memory`: there is none for the list.
pub fn bound_in(alloc: Global, block: &Block) -> Result<Vec<Var>, Memory>
    ensures { IfOk result (λ vars. vars.items ≡ binders_of (block_term block.now)) }
{
    let mut bound = Vec::new(alloc);
    add_block(block, &mut bound)?;
    Ok(bound)
}

fn add(more: &[Var], bound: &mut Vec<Var>) -> Result<(), Memory>
    ensures { OnOk result (bound.new.items ≡ bound.old.items ++ more.now) }
{
    bound.extend_from_slice(more)?;
    Ok(())
}

#[cycle(binding)]
fn add_block(block: &Block, bound: &mut Vec<Var>) -> Result<(), Memory>
    ensures { OnOk result (bound.new.items ≡ bound.old.items ++ binders_of (block_term block.now)) }
{
    for binding in &block.lets {
        add(&binding.targets, bound)?;
        add_right(&binding.right, bound)?;
    }
    Ok(())
}

#[cycle(binding)]
fn add_right(right: &Right, bound: &mut Vec<Var>) -> Result<(), Memory>
    ensures { OnOk result (bound.new.items ≡ bound.old.items ++ bound_in_right (right_term right.now)) }
{
    match right {
        Right::If { yes, no, .. } => {
            add_block(yes, bound)?;
            add_block(no, bound)
        }
        Right::Loop {
            params,
            test,
            body,
            ..
        } => {
            add_behind(params, test, bound)?;
            add_block(body, bound)
        }
        Right::With(w) => add_with(w, bound),
        Right::Parted(p) => add_parted(p, bound),
        _ => Ok(()),
    }
}

/// A block behind variables that are bound.
#[cycle(binding)]
fn add_behind(vars: &[Var], block: &Block, bound: &mut Vec<Var>) -> Result<(), Memory>
    ensures { OnOk result (bound.new.items ≡ bound.old.items ++ (vars.now ++ binders_of (block_term block.now))) }
{
    add(vars, bound)?;
    add_block(block, bound)
}

#[cycle(binding)]
fn add_with(with: &WithLoop, bound: &mut Vec<Var>) -> Result<(), Memory>
    ensures { OnOk result (bound.new.items ≡ bound.old.items ++ bound_in_right (with_term with.now)) }
{
    for generator in &with.gens {
        add_generator(generator, bound)?;
    }
    Ok(())
}

#[cycle(binding)]
fn add_generator(generator: &CoreGen, bound: &mut Vec<Var>) -> Result<(), Memory>
    ensures { OnOk result (bound.new.items ≡ bound.old.items
        ++ (index_names (gen_term generator.now).head ++ binders_of (gen_term generator.now).body)) }
{
    bound.push(generator.index)?;
    add(&generator.names, bound)?;
    add_block(&generator.body, bound)
}

#[cycle(binding)]
fn add_parted(parted: &PartedLoop, bound: &mut Vec<Var>) -> Result<(), Memory>
    ensures { OnOk result (bound.new.items ≡ bound.old.items ++ bound_in_right (parted_term parted.now)) }
{
    for part in &parted.parts {
        add_part(part, bound)?;
    }
    Ok(())
}

#[cycle(binding)]
fn add_part(part: &CorePart, bound: &mut Vec<Var>) -> Result<(), Memory>
    ensures { OnOk result (bound.new.items ≡ bound.old.items ++ (((part_term part.now).head.index ∷ []) ++ binders_of (part_term part.now).body)) }
{
    bound.push(part.index)?;
    add_block(&part.body, bound)
}

//! The variables that a block uses and does not bind.

ghost use Rattle.std.specs.Prelude.{◌≡◌, ◌++◌, [], ◌∷◌, ℕ, IfOk, OnOk, ◌||◌, ◌&&◌, not, option_to_list};
ghost use Rattle.std.specs.Ordering.{nat_cmp};
ghost use Rattle.std.specs.BTreeSet.{contains};
ghost use Rattle.core_ir.specs.declared.tree.Var.{Var};
ghost use Rattle.core_ir.specs.View.{block_term, right_term, with_term, gen_term, parted_term, part_term};
ghost use Rattle.core_ir.specs.Binders.{is_in, bound_in, bound_in_right};
ghost use Rattle.core_ir.specs.Scopes.{head_uses};
ghost use Rattle.core_subst.specs.Names.{index_names, used_in, used_in_right, is_free, AreAscending, variable};

use core_ir::{Block, CoreGen, CorePart, PartedLoop, Right, Var, WithLoop};
use sac_base::Memory;
use std::alloc::Global;
use std::collections::BTreeSet;

/// The variables that were met on the way through a block.
#[derive(Drop)]
struct Met {
    used: Vec<Var>,
    bound: Vec<Var>,
}

/// The variables that the block uses and does not bind, each once, in the order of their numbers.
pub fn free(alloc: Global, block: &Block) -> Result<Vec<Var>, Memory>
    ensures ascending { IfOk result (λ vars. AreAscending vars.items) }
    ensures exact { IfOk result (λ vars. (x : Var) → is_in x vars.items ≡ is_free (block_term block.now) x) }
{
    let mut met = Met {
        used: Vec::new(alloc),
        bound: Vec::new(alloc),
    };
    meet_block(block, &mut met)?;
    let mut numbers = BTreeSet::new(alloc);
    insert_all(&mut numbers, &met.used)?;
    remove_all(&mut numbers, &met.bound);
    in_order(alloc, &numbers)
}

fn insert_all(numbers: &mut BTreeSet<u32>, vars: &[Var]) -> Result<(), Memory>
    ensures { OnOk result ((n : ℕ) → contains nat_cmp numbers.new n ≡ (contains nat_cmp numbers.old n || is_in (variable n) vars.now)) }
{
    for var in vars {
        numbers.insert(var.0)?;
    }
    Ok(())
}

fn remove_all(numbers: &mut BTreeSet<u32>, vars: &[Var])
    ensures { (n : ℕ) → contains nat_cmp numbers.new n ≡ (contains nat_cmp numbers.old n && not (is_in (variable n) vars.now)) }
{
    for var in vars {
        let _ = numbers.remove(&var.0);
    }
}

/// The variables with the numbers of the set.
fn in_order(alloc: Global, numbers: &BTreeSet<u32>) -> Result<Vec<Var>, Memory>
    ensures ascending { IfOk result (λ vars. AreAscending vars.items) }
    ensures exact { IfOk result (λ vars. (x : Var) → is_in x vars.items ≡ contains nat_cmp numbers.now x.0) }
{
    let mut vars = Vec::new(alloc);
    for number in numbers {
        vars.push(Var(*number))?;
    }
    Ok(vars)
}

/// Appends variables.
fn add(vars: &mut Vec<Var>, more: &[Var]) -> Result<(), Memory>
    ensures { OnOk result (vars.new.items ≡ vars.old.items ++ more.now) }
{
    vars.extend_from_slice(more)?;
    Ok(())
}

#[cycle(free)]
fn meet_block(block: &Block, met: &mut Met) -> Result<(), Memory>
    ensures used { OnOk result (met.new.used.items ≡ met.old.used.items ++ used_in (block_term block.now)) }
    ensures bound { OnOk result (met.new.bound.items ≡ met.old.bound.items ++ bound_in (block_term block.now)) }
{
    for binding in &block.lets {
        add(&mut met.bound, &binding.targets)?;
        meet_right(&binding.right, met)?;
    }
    add(&mut met.used, &block.results)
}

#[cycle(free)]
fn meet_right(right: &Right, met: &mut Met) -> Result<(), Memory>
    ensures used { OnOk result (met.new.used.items ≡ met.old.used.items ++ used_in_right (right_term right.now)) }
    ensures bound { OnOk result (met.new.bound.items ≡ met.old.bound.items ++ bound_in_right (right_term right.now)) }
{
    match right {
        Right::If { cond, yes, no } => {
            meet_after(yes, &[*cond], &[], met)?;
            meet_block(no, met)
        }
        Right::Loop {
            start,
            params,
            test,
            body,
            ..
        } => {
            meet_after(test, start, params, met)?;
            meet_block(body, met)
        }
        Right::With(w) => meet_with(w, met),
        Right::Parted(p) => meet_parted(p, met),
        _ => add(&mut met.used, right.operands().as_slice()),
    }
}

/// A block, behind variables that are used and others that are bound.
#[cycle(free)]
fn meet_after(block: &Block, used: &[Var], bound: &[Var], met: &mut Met) -> Result<(), Memory>
    ensures used { OnOk result (met.new.used.items ≡ met.old.used.items ++ (used.now ++ used_in (block_term block.now))) }
    ensures bound { OnOk result (met.new.bound.items ≡ met.old.bound.items ++ (bound.now ++ bound_in (block_term block.now))) }
{
    add(&mut met.used, used)?;
    add(&mut met.bound, bound)?;
    meet_block(block, met)
}

#[cycle(free)]
fn meet_with(with: &WithLoop, met: &mut Met) -> Result<(), Memory>
    ensures used { OnOk result (met.new.used.items ≡ met.old.used.items ++ used_in_right (with_term with.now)) }
    ensures bound { OnOk result (met.new.bound.items ≡ met.old.bound.items ++ bound_in_right (with_term with.now)) }
{
    add(&mut met.used, with.op.operands().as_slice())?;
    for generator in &with.gens {
        meet_generator(generator, met)?;
    }
    Ok(())
}

#[cycle(free)]
fn meet_generator(generator: &CoreGen, met: &mut Met) -> Result<(), Memory>
    ensures used { OnOk result (met.new.used.items ≡ met.old.used.items ++ (head_uses (gen_term generator.now).head ++ used_in (gen_term generator.now).body)) }
    ensures bound { OnOk result (met.new.bound.items ≡ met.old.bound.items
        ++ (index_names (gen_term generator.now).head ++ bound_in (gen_term generator.now).body)) }
{
    meet_head(generator, &mut met.used)?;
    meet_index(generator, &mut met.bound)?;
    meet_block(&generator.body, met)
}

#[cycle(free)]
fn meet_parted(parted: &PartedLoop, met: &mut Met) -> Result<(), Memory>
    ensures used { OnOk result (met.new.used.items ≡ met.old.used.items ++ used_in_right (parted_term parted.now)) }
    ensures bound { OnOk result (met.new.bound.items ≡ met.old.bound.items ++ bound_in_right (parted_term parted.now)) }
{
    add(&mut met.used, parted.op.operands().as_slice())?;
    for part in &parted.parts {
        meet_part(part, met)?;
    }
    Ok(())
}

#[cycle(free)]
fn meet_part(part: &CorePart, met: &mut Met) -> Result<(), Memory>
    ensures used { OnOk result (met.new.used.items ≡ met.old.used.items ++ used_in (part_term part.now).body) }
    ensures bound { OnOk result (met.new.bound.items ≡ met.old.bound.items ++ (((part_term part.now).head.index ∷ []) ++ bound_in (part_term part.now).body)) }
{
    add(&mut met.bound, &[part.index])?;
    meet_block(&part.body, met)
}

/// The variables that a generator's body sees as its index.
fn meet_index(generator: &CoreGen, bound: &mut Vec<Var>) -> Result<(), Memory>
    ensures { OnOk result (bound.new.items ≡ bound.old.items ++ index_names (gen_term generator.now).head) }
{
    bound.push(generator.index)?;
    add(bound, &generator.names)
}

fn meet_option(var: Option<Var>, used: &mut Vec<Var>) -> Result<(), Memory>
    ensures { OnOk result (used.new.items ≡ used.old.items ++ option_to_list var) }
{
    if let Some(x) = var {
        used.push(x)?;
    }
    Ok(())
}

fn meet_head(generator: &CoreGen, used: &mut Vec<Var>) -> Result<(), Memory>
    ensures { OnOk result (used.new.items ≡ used.old.items ++ head_uses (gen_term generator.now).head) }
{
    meet_option(generator.lower, used)?;
    meet_option(generator.upper, used)?;
    meet_option(generator.step, used)?;
    meet_option(generator.width, used)
}

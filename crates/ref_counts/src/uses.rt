//! The list of what a block uses.

ghost use Rattle.std.specs.Prelude.{◌≡◌, ◌<◌, ◌++◌, ◌∷◌, [], length, option_to_list, slice_set, IfOk};
ghost use Rattle.core_ir.specs.View.{block_term, let_term, right_term, with_term, parted_term, gen_term};
ghost use Rattle.core_ir.specs.Scopes.{head_uses};
ghost use Rattle.ref_rules.specs.listed_uses.Latest.{section};
ghost use Rattle.ref_rules.specs.declared.listed_uses.list.Entry.TheVariants.{Section};
ghost use Rattle.ref_counts.specs.Listing.{Closes, each, listed, listed_right};

use core_ir::{Block, CoreGen, Let, PartedLoop, Right, Var, WithLoop};
use ref_rules::listed_uses::{Entry, Uses};
use sac_base::Memory;
use std::alloc::Global;

/// All that the block uses, as a section.
pub fn uses_of(alloc: Global, block: &Block) -> Result<Uses, Memory>
    ensures { IfOk result (λ uses. uses ≡ section (listed (block_term block.now))) }
{
    let mut entries = Vec::new(alloc);
    add_block(block, &mut entries)?;
    Uses::new(alloc, entries)
}

/// Appends a block as a section.
#[cycle(uses)]
fn add_block(block: &Block, out: &mut Vec<Entry>) -> Result<(), Memory>
    ensures { IfOk result (λ done. out.new.items ≡ out.old.items ++ section (listed (block_term block.now))) }
{
    let head = open_section(out)?;
    for binding in &block.lets {
        add_let(binding, out)?;
    }
    add_each(&block.results, out)?;
    close_section(out, head);
    Ok(())
}

/// Appends what a binding uses, as a section.
#[cycle(uses)]
fn add_let(binding: &Let, out: &mut Vec<Entry>) -> Result<(), Memory>
    ensures { IfOk result (λ done. out.new.items ≡ out.old.items ++ section (listed_right (let_term binding.now).right)) }
{
    let head = open_section(out)?;
    add_right(&binding.right, out)?;
    close_section(out, head);
    Ok(())
}

/// Appends what a right side uses.
#[cycle(uses)]
fn add_right(right: &Right, out: &mut Vec<Entry>) -> Result<(), Memory>
    ensures { IfOk result (λ done. out.new.items ≡ out.old.items ++ listed_right (right_term right.now)) }
{
    match right {
        Right::If { cond, yes, no } => {
            add_each(&[*cond], out)?;
            add_block(yes, out)?;
            add_block(no, out)?;
            Ok(())
        }
        Right::Loop {
            start,
            test,
            body,
            ..
        } => {
            add_each(start, out)?;
            add_block(test, out)?;
            add_block(body, out)?;
            Ok(())
        }
        Right::With(w) => add_with(w, out),
        Right::Parted(p) => add_parted(p, out),
        _ => add_each(right.operands().as_slice(), out),
    }
}

#[cycle(uses)]
fn add_with(with: &WithLoop, out: &mut Vec<Entry>) -> Result<(), Memory>
    ensures { IfOk result (λ done. out.new.items ≡ out.old.items ++ listed_right (with_term with.now)) }
{
    add_section(with.op.operands().as_slice(), out)?;
    for generator in &with.gens {
        add_bounds(generator, out)?;
        add_block(&generator.body, out)?;
    }
    Ok(())
}

#[cycle(uses)]
fn add_parted(parted: &PartedLoop, out: &mut Vec<Entry>) -> Result<(), Memory>
    ensures { IfOk result (λ done. out.new.items ≡ out.old.items ++ listed_right (parted_term parted.now)) }
{
    add_section(parted.op.operands().as_slice(), out)?;
    for part in &parted.parts {
        add_block(&part.body, out)?;
    }
    Ok(())
}

/// Appends what the bounds of a generator use, as a section.
fn add_bounds(generator: &CoreGen, out: &mut Vec<Entry>) -> Result<(), Memory>
    ensures { IfOk result (λ done. out.new.items ≡ out.old.items ++ section (each (head_uses (gen_term generator.now).head))) }
{
    let head = open_section(out)?;
    add_option(generator.lower, out)?;
    add_option(generator.upper, out)?;
    add_option(generator.step, out)?;
    add_option(generator.width, out)?;
    close_section(out, head);
    Ok(())
}

fn add_option(x: Option<Var>, out: &mut Vec<Entry>) -> Result<(), Memory>
    ensures { IfOk result (λ done. out.new.items ≡ out.old.items ++ each (option_to_list x)) }
{
    match x {
        Some(x) => add_each(&[x], out),
        None => Ok(()),
    }
}

fn add_section(xs: &[Var], out: &mut Vec<Entry>) -> Result<(), Memory>
    ensures { IfOk result (λ done. out.new.items ≡ out.old.items ++ section (each xs.now)) }
{
    let head = open_section(out)?;
    add_each(xs, out)?;
    close_section(out, head);
    Ok(())
}

fn add_each(xs: &[Var], out: &mut Vec<Entry>) -> Result<(), Memory>
    ensures { IfOk result (λ done. out.new.items ≡ out.old.items ++ each xs.now) }
{
    for x in xs {
        out.push(Entry::Use(*x))?;
    }
    Ok(())
}

/// Appends the head of a section that ends nowhere yet, and answers its place.
fn open_section(out: &mut Vec<Entry>) -> Result<usize, Memory>
    ensures { IfOk result (λ head. (head ≡ length out.old.items) × (out.new.items ≡ out.old.items ++ Section 0 ∷ [])) }
{
    let head = out.len();
    out.push(Entry::Section(0))?;
    Ok(head)
}

/// The section whose head stands at this place ends with the list.
fn close_section(out: &mut Vec<Entry>, head: usize)
    ensures { Closes head out.old.items out.new.items }
{
    let count = out.len().saturating_sub(head).saturating_sub(1);
    set_entry(out, head, Entry::Section(count));
}

fn set_entry(out: &mut Vec<Entry>, place: usize, entry: Entry)
    ensures { place < length out.old.items → out.new.items ≡ slice_set out.old.items place entry }
{
    if place < out.len() {
        out[place] = entry;
    }
}

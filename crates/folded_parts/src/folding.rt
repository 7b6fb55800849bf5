//! A body in which copies stand for the selections from a producer.

ghost use Rattle.std.specs.Prelude.{◌≡◌, ◌++◌, [], ◌∷◌, OnOk, IfOk, map, List};
ghost use Rattle.core_ir.specs.Terms.{LetTerm};
ghost use Rattle.core_ir.specs.View.{block_term, let_term, part_term, right_term};
ghost use Rattle.folded_parts.specs.Folding.{BlockFolded, LetFolded, RightFolded};

use crate::taking::{Source, push_taken};
use core_ir::{Block, Let, Right, Var};
use parted_bodies::Progress;
use sac_base::{Memory, Site};
use std::alloc::Global;

/// Replaces the selections of a block from a producer. So many selections came before.
///
/// # Errors
///
/// `Memory`: there is none for the copies, or the numbers of variables have more than 32 bits.
#[cycle(folding)]
pub fn fold_block(
    alloc: Global,
    block: Block,
    source: &Source<'_>,
    passed: &mut usize,
    progress: &mut Progress,
) -> Result<Block, Memory>
    ensures { IfOk result (λ new. BlockFolded source.now.producer (map part_term source.now.parts.now) source.now.holders.now passed.old progress.old.next
        (block_term block) (block_term new) passed.new progress.new.next) }
{
    let Block { lets, results } = block;
    let mut folded = Vec::new(alloc);
    for binding in lets {
        fold_binding(alloc, binding, source, &mut folded, passed, progress)?;
    }
    Ok(Block {
        lets: folded,
        results,
    })
}

/// Appends a binding, or what stands for it.
#[cycle(folding)]
fn fold_binding(
    alloc: Global,
    binding: Let,
    source: &Source<'_>,
    folded: &mut Vec<Let>,
    passed: &mut usize,
    progress: &mut Progress,
) -> Result<(), Memory>
    ensures { OnOk result ((ls : List LetTerm) × ((map let_term folded.new.items ≡ map let_term folded.old.items ++ ls)
        × LetFolded source.now.producer (map part_term source.now.parts.now) source.now.holders.now passed.old progress.old.next
        (let_term binding) ls passed.new progress.new.next)) }
{
    let Let {
        targets,
        site,
        right,
    } = binding;
    match source.chosen(&right, *passed) {
        Some((index, part)) => {
            *passed += 1;
            push_taken(alloc, part, index, &targets, site, folded, progress)?;
            Ok(())
        }
        None => {
            let right = fold_right(alloc, right, source, passed, progress)?;
            push_kept(targets, site, right, folded)?;
            Ok(())
        }
    }
}

#[cycle(folding)]
fn fold_right(
    alloc: Global,
    right: Right,
    source: &Source<'_>,
    passed: &mut usize,
    progress: &mut Progress,
) -> Result<Right, Memory>
    ensures { IfOk result (λ new. RightFolded source.now.producer (map part_term source.now.parts.now) source.now.holders.now passed.old progress.old.next
        (right_term right) (right_term new) passed.new progress.new.next) }
{
    match right {
        Right::If { cond, yes, no } => {
            let yes = fold_block(alloc, yes, source, passed, progress)?;
            let no = fold_block(alloc, no, source, passed, progress)?;
            Ok(Right::If { cond, yes, no })
        }
        Right::Loop {
            first_body,
            start,
            params,
            test,
            body,
            test_site,
        } => {
            let test = fold_block(alloc, test, source, passed, progress)?;
            let body = fold_block(alloc, body, source, passed, progress)?;
            Ok(Right::Loop {
                first_body,
                start,
                params,
                test,
                body,
                test_site,
            })
        }
        whole => Ok(whole),
    }
}

fn push_kept(targets: Vec<Var>, site: Site, right: Right, lets: &mut Vec<Let>) -> Result<(), Memory>
    ensures { OnOk result (map let_term lets.new.items ≡ map let_term lets.old.items
        ++ (record { targets = targets.items; site = site; right = right_term right } ∷ [])) }
{
    lets.push(Let {
        targets,
        site,
        right,
    })?;
    Ok(())
}

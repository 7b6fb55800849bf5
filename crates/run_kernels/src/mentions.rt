//! The variables that a loop mentions and that are bound outside of it.
//!
//! Only these can be read by the loop. That a list is longer or shorter has no say in any result: a loop that reads a variable
//! which is missing has no kernel.

use core_ir::Var;
use counted_code::{CodeBlock, CodeRight, CodeStep};
use run_values::{Frames, RunValue};
use sac_base::Memory;
use std::alloc::Global;

// A loop that reads more variables from outside has no kernel, so that this list, which is searched for each of them, stays short.
const MOST_MENTIONED: usize = 256;

/// The variables that a right side without loops over cells mentions and that are bound in the call that runs, each once.
pub fn mentions_of(
    alloc: Global,
    right: &CodeRight,
    frames: &Frames<'_>,
) -> Result<Vec<Var>, Memory> {
    let mut all = Vec::new(alloc);
    mention_right(right, frames, &mut all)?;
    Ok(all)
}

#[cycle(mention)]
fn mention_block(block: &CodeBlock, frames: &Frames<'_>, all: &mut Vec<Var>) -> Result<(), Memory> {
    for step in &block.steps {
        if let CodeStep::Bind(binding) = step {
            mention_right(&binding.right, frames, all)?;
        }
    }
    mention_all(&block.results, frames, all)
}

#[cycle(mention)]
fn mention_right(right: &CodeRight, frames: &Frames<'_>, all: &mut Vec<Var>) -> Result<(), Memory> {
    match right {
        CodeRight::If { cond, yes, no } => {
            mention(*cond, frames, all)?;
            mention_block(yes, frames, all)?;
            mention_block(no, frames, all)
        }
        CodeRight::Loop {
            start,
            test,
            body,
            ..
        } => {
            mention_all(start, frames, all)?;
            mention_block(test, frames, all)?;
            mention_block(body, frames, all)
        }
        CodeRight::Call { args, .. } => mention_all(args, frames, all),
        _ => mention_operands(right, frames, all),
    }
}

fn mention_operands(
    right: &CodeRight,
    frames: &Frames<'_>,
    all: &mut Vec<Var>,
) -> Result<(), Memory> {
    match right {
        CodeRight::Copy(x) | CodeRight::Unary(_, x) | CodeRight::Dim(x) | CodeRight::Check(x, _) =>
            { mention(*x, frames, all) }
        CodeRight::Binary(_, x, y) | CodeRight::Select(x, y) => {
            mention(*x, frames, all)?;
            mention(*y, frames, all)
        }
        CodeRight::Replace(a, x, y) => mention_all(&[*a, *x, *y], frames, all),
        CodeRight::Literal(xs) => mention_all(xs, frames, all),
        _ => Ok(()),
    }
}

fn mention_all(xs: &[Var], frames: &Frames<'_>, all: &mut Vec<Var>) -> Result<(), Memory> {
    for x in xs {
        mention(*x, frames, all)?;
    }
    Ok(())
}

// Adds a variable, if it is bound, has not been added yet and few have been.
fn mention(x: Var, frames: &Frames<'_>, all: &mut Vec<Var>) -> Result<(), Memory> {
    if all.len() < MOST_MENTIONED && is_bound(x, frames) && !all.contains(&x) {
        all.push(x)?;
    }
    Ok(())
}

fn is_bound(x: Var, frames: &Frames<'_>) -> bool {
    !matches!(frames.get(x), RunValue::Unbound)
}

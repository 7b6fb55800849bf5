//! Groups that call themselves.
//!
//! What is found here has no say in any result: it decides which calls are worth a kernel.

use crate::passing::ArgumentForm;
use counted_code::{Code, CodeBlock, CodeFun, CodeRight, CodeStep};
use sac_base::{ArrayType, Memory, Part};
use std::alloc::Global;

// The most steps of a function of such a group. A kernel has the steps of a body once for each call that it goes deep.
const MOST_STEPS: usize = 128;

/// Whether a function of a group calls the group in its own body, and all functions of the group are short, with no other loops than those in which they call
/// the group and those within these.
pub fn is_short_recursion(code: &Code, group: u32) -> bool {
    let Some(places) = code.groups.get(group as usize) else {
        return false;
    };
    let mut calls = false;
    for place in places {
        if let Some(function) = code.functions.get(*place as usize) {
            if block_steps(&function.body, Some(group)) > MOST_STEPS {
                return false;
            }
            calls = calls || block_calls(&function.body, group);
        }
    }
    calls
}

// How many steps a block has, with those of the blocks in it; more than any number where it has a loop in which this group is not called. Without a group
// loops of all kinds may be there.
#[cycle(steps)]
fn block_steps(block: &CodeBlock, called: Option<u32>) -> usize {
    let mut steps = block.steps.len();
    for step in &block.steps {
        if let CodeStep::Bind(binding) = step {
            steps = steps.saturating_add(right_steps(&binding.right, called));
        }
    }
    steps
}

#[cycle(steps)]
fn right_steps(right: &CodeRight, called: Option<u32>) -> usize {
    match right {
        CodeRight::If { yes, no, .. } => {
            block_steps(yes, called).saturating_add(block_steps(no, called))
        }
        CodeRight::Loop { test, body, .. } => {
            // A kernel that goes too deep has made its turns in vain. Of a loop that calls the group each turn is the evaluator's else, which is slower by
            // far than a kernel that makes it some times; any other loop is a kernel of its own.
            if !may_loop(right, called) {
                return usize::MAX;
            }
            block_steps(test, None).saturating_add(block_steps(body, None))
        }
        _ => 0,
    }
}

fn may_loop(right: &CodeRight, called: Option<u32>) -> bool {
    match called {
        Some(group) => right_calls(right, group),
        None => true,
    }
}

#[cycle(calls)]
fn block_calls(block: &CodeBlock, group: u32) -> bool {
    for step in &block.steps {
        if let CodeStep::Bind(binding) = step {
            if right_calls(&binding.right, group) {
                return true;
            }
        }
    }
    false
}

#[cycle(calls)]
fn right_calls(right: &CodeRight, group: u32) -> bool {
    match right {
        CodeRight::Call { group: other, .. } => *other == group,
        CodeRight::If { yes, no, .. } => block_calls(yes, group) || block_calls(no, group),
        CodeRight::Loop { test, body, .. } => block_calls(test, group) || block_calls(body, group),
        _ => false,
    }
}

/// The forms of the arguments of each function of a group that takes scalars and vectors of 1 to 8 elements alone, whose lengths are known.
pub fn forms_of(alloc: Global, code: &Code, group: u32) -> Result<Vec<Vec<ArgumentForm>>, Memory> {
    let mut all = Vec::new(alloc);
    let Some(places) = code.groups.get(group as usize) else {
        return Ok(all);
    };
    for place in places {
        if let Some(function) = code.functions.get(*place as usize) {
            if let Some(forms) = argument_forms(alloc, function)? {
                all.push(forms)?;
            }
        }
    }
    Ok(all)
}

fn argument_forms(alloc: Global, function: &CodeFun) -> Result<Option<Vec<ArgumentForm>>, Memory> {
    let mut forms = Vec::new(alloc);
    for (_, ty) in &function.params {
        let Some(form) = form_of(ty) else {
            return Ok(None);
        };
        forms.push(form)?;
    }
    Ok(Some(forms))
}

fn form_of(ty: &ArrayType) -> Option<ArgumentForm> {
    let Part::Known(shape) = &ty.part else {
        return None;
    };
    match shape.extents() {
        [] => Some(ArgumentForm::Scalar(ty.base)),
        [n] => match u8::try_from(*n) {
            Ok(count) if 1 <= count && count <= 8 => Some(ArgumentForm::Vector(ty.base, count)),
            _ => None,
        },
        _ => None,
    }
}

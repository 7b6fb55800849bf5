//! Functions that no call takes.

use counted_code::{Code, CodeBlock, CodeRight, CodeStep};
use sac_base::Memory;
use std::alloc::Global;

/// For each function, whether a call anywhere in the code may take it. It has no say in any result: what a function needs that no call takes is never asked.
pub fn called_places(alloc: Global, code: &Code) -> Result<Vec<bool>, Memory> {
    let mut called = vec![in alloc; false; code.functions.len()]?;
    for function in &code.functions {
        mark_block(&function.body, code, &mut called);
    }
    Ok(called)
}

#[cycle(mark)]
fn mark_block(block: &CodeBlock, code: &Code, called: &mut [bool]) {
    for step in &block.steps {
        if let CodeStep::Bind(binding) = step {
            mark_right(&binding.right, code, called);
        }
    }
}

#[cycle(mark)]
fn mark_right(right: &CodeRight, code: &Code, called: &mut [bool]) {
    match right {
        CodeRight::If { yes, no, .. } => {
            mark_block(yes, code, called);
            mark_block(no, code, called);
        }
        CodeRight::Loop { test, body, .. } => {
            mark_block(test, code, called);
            mark_block(body, code, called);
        }
        CodeRight::With(with) => {
            for generator in &with.gens {
                mark_block(&generator.body, code, called);
            }
        }
        CodeRight::Parted(parted) => {
            for part in &parted.parts {
                mark_block(&part.body, code, called);
            }
        }
        CodeRight::Call { group, .. } => mark_group(*group as usize, code, called),
        _ => {}
    }
}

fn mark_group(group: usize, code: &Code, called: &mut [bool]) {
    if let Some(places) = code.groups.get(group) {
        for place in places {
            let place = *place as usize;
            if place < called.len() {
                called[place] = true;
            }
        }
    }
}

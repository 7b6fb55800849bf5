//! The loops of a program that stand outside of the cells of others.

use counted_code::{Code, CodeBlock, CodeRight, CodeStep};
use run_loops::CellSource;
use sac_base::Memory;
use std::alloc::Global;

// How many loops are kept in mind at most.
const MOST: usize = 1024;

/// Where the cells of these loops come from, of at most so many of them.
pub fn loops_of(alloc: Global, code: &Code) -> Result<Vec<CellSource<'_>>, Memory> {
    let mut sources = Vec::new(alloc);
    for function in &code.functions {
        add_block(&function.body, &mut sources)?;
    }
    Ok(sources)
}

#[cycle(walk)]
fn add_block<'c>(block: &'c CodeBlock, sources: &mut Vec<CellSource<'c>>) -> Result<(), Memory> {
    for step in &block.steps {
        match step {
            CodeStep::Bind(binding) => add_right(&binding.right, sources)?,
            CodeStep::Keep(_) | CodeStep::Release(_) => {}
        }
    }
    Ok(())
}

#[cycle(walk)]
fn add_right<'c>(right: &'c CodeRight, sources: &mut Vec<CellSource<'c>>) -> Result<(), Memory> {
    match right {
        CodeRight::If { yes, no, .. } => {
            add_block(yes, sources)?;
            add_block(no, sources)
        }
        CodeRight::Loop { test, body, .. } => {
            add_block(test, sources)?;
            add_block(body, sources)
        }
        CodeRight::With(with) => add_source(CellSource::Generators(&with.gens), sources),
        CodeRight::Parted(parted) => add_source(CellSource::Parts(&parted.parts), sources),
        _ => Ok(()),
    }
}

fn add_source<'c>(source: CellSource<'c>, sources: &mut Vec<CellSource<'c>>) -> Result<(), Memory> {
    if sources.len() < MOST {
        sources.push(source)?;
    }
    Ok(())
}

//! The variables that the cells of a loop mention.
//!
//! Only these can be read by a cell, so only these are looked up when a phase begins. That a list is longer or shorter has no
//! say in any result: a cell that reads a variable which is missing is run in order.

use core_ir::{CoreOp, PartedOp, Var};
use counted_code::{CodeBlock, CodeGen, CodePart, CodeRight, CodeStep};
use run_loops::CellSource;
use sac_base::Memory;

/// Appends the variables that the cells of a source mention, those that the cells bind included, and those of the bounds of
/// generators.
pub fn mention_source(source: &CellSource<'_>, all: &mut Vec<Var>) -> Result<(), Memory> {
    match source {
        CellSource::Generators(gens) => mention_gens(gens, all),
        CellSource::Parts(parts) => mention_parts(parts, all),
    }
}

#[cycle(mention)]
fn mention_gens(gens: &[CodeGen], all: &mut Vec<Var>) -> Result<(), Memory> {
    for generator in gens {
        mention_bound(generator.lower, all)?;
        mention_bound(generator.upper, all)?;
        mention_bound(generator.step, all)?;
        mention_bound(generator.width, all)?;
        mention_block(&generator.body, all)?;
    }
    Ok(())
}

#[cycle(mention)]
fn mention_parts(parts: &[CodePart], all: &mut Vec<Var>) -> Result<(), Memory> {
    for part in parts {
        mention_block(&part.body, all)?;
    }
    Ok(())
}

#[cycle(mention)]
fn mention_block(block: &CodeBlock, all: &mut Vec<Var>) -> Result<(), Memory> {
    for step in &block.steps {
        match step {
            CodeStep::Bind(binding) => mention_right(&binding.right, all)?,
            CodeStep::Keep(x) | CodeStep::Release(x) => all.push(*x)?,
        }
    }
    all.extend_from_slice(&block.results)?;
    Ok(())
}

#[cycle(mention)]
fn mention_right(right: &CodeRight, all: &mut Vec<Var>) -> Result<(), Memory> {
    match right {
        CodeRight::If { cond, yes, no } => {
            all.push(*cond)?;
            mention_block(yes, all)?;
            mention_block(no, all)
        }
        CodeRight::Loop {
            start,
            test,
            body,
            ..
        } => {
            all.extend_from_slice(start)?;
            mention_block(test, all)?;
            mention_block(body, all)
        }
        CodeRight::With(with) => {
            mention_operation(with.op, all)?;
            mention_gens(&with.gens, all)
        }
        CodeRight::Parted(parted) => {
            mention_parted(parted.op, all)?;
            mention_parts(&parted.parts, all)
        }
        _ => mention_operands(right, all),
    }
}

fn mention_operands(right: &CodeRight, all: &mut Vec<Var>) -> Result<(), Memory> {
    match right {
        CodeRight::Copy(x)
        | CodeRight::Unary(_, x)
        | CodeRight::Dim(x)
        | CodeRight::ShapeOf(x)
        | CodeRight::Check(x, _) => all.push(*x)?,
        CodeRight::Binary(_, x, y) | CodeRight::Reshape(x, y) | CodeRight::Select(x, y) => {
            all.extend_from_slice(&[*x, *y])?
        }
        CodeRight::Replace(x, y, z) => all.extend_from_slice(&[*x, *y, *z])?,
        CodeRight::Literal(xs) => all.extend_from_slice(xs)?,
        CodeRight::Call { args, .. } => all.extend_from_slice(args)?,
        _ => {}
    }
    Ok(())
}

fn mention_operation(op: CoreOp, all: &mut Vec<Var>) -> Result<(), Memory> {
    match op {
        CoreOp::Genarray { shape, default } => all.extend_from_slice(&[shape, default])?,
        CoreOp::Modarray { array } => all.push(array)?,
        CoreOp::Fold { neutral, .. } => all.push(neutral)?,
    }
    Ok(())
}

fn mention_parted(op: PartedOp, all: &mut Vec<Var>) -> Result<(), Memory> {
    match op {
        PartedOp::Genarray => {}
        PartedOp::Modarray { array } => all.push(array)?,
        PartedOp::Fold { neutral, .. } => all.push(neutral)?,
    }
    Ok(())
}

fn mention_bound(bound: Option<Var>, all: &mut Vec<Var>) -> Result<(), Memory> {
    if let Some(x) = bound {
        all.push(x)?;
    }
    Ok(())
}

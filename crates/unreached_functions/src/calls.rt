//! The groups that a block calls.

ghost use Rattle.std.specs.Prelude.{◌≡◌, ◌++◌, OnOk};
ghost use Rattle.core_ir.specs.View.{block_term, right_term, with_term, parted_term};
ghost use Rattle.core_ir.specs.WellFormed.{calls_in, calls_in_right};

use core_ir::{Block, PartedLoop, Right, WithLoop};
use sac_base::Memory;

/// Adds the groups that a block calls, nested calls included.
#[cycle(calls)]
pub fn add_calls(block: &Block, groups: &mut Vec<u32>) -> Result<(), Memory>
    ensures { OnOk result (groups.new.items ≡ groups.old.items ++ calls_in (block_term block.now)) }
{
    for binding in &block.lets {
        add_calls_right(&binding.right, groups)?;
    }
    Ok(())
}

#[cycle(calls)]
fn add_calls_right(right: &Right, groups: &mut Vec<u32>) -> Result<(), Memory>
    ensures { OnOk result (groups.new.items ≡ groups.old.items ++ calls_in_right (right_term right.now)) }
{
    match right {
        Right::If { yes, no, .. } => {
            add_calls(yes, groups)?;
            add_calls(no, groups)?;
        }
        Right::Loop { test, body, .. } => {
            add_calls(test, groups)?;
            add_calls(body, groups)?;
        }
        Right::Call { group, .. } => groups.push(*group)?,
        Right::With(w) => add_calls_with(w, groups)?,
        Right::Parted(p) => add_calls_parted(p, groups)?,
        _ => {}
    }
    Ok(())
}

#[cycle(calls)]
fn add_calls_with(with: &WithLoop, groups: &mut Vec<u32>) -> Result<(), Memory>
    ensures { OnOk result (groups.new.items ≡ groups.old.items ++ calls_in_right (with_term with.now)) }
{
    for generator in &with.gens {
        add_calls(&generator.body, groups)?;
    }
    Ok(())
}

#[cycle(calls)]
fn add_calls_parted(parted: &PartedLoop, groups: &mut Vec<u32>) -> Result<(), Memory>
    ensures { OnOk result (groups.new.items ≡ groups.old.items ++ calls_in_right (parted_term parted.now)) }
{
    for part in &parted.parts {
        add_calls(&part.body, groups)?;
    }
    Ok(())
}

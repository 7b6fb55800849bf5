//! The uses of variables in a right side.

ghost use Rattle.std.specs.Prelude.{◌≡◌, ◌++◌, option_to_list, OnOk};
ghost use Rattle.core_ir.specs.View.{block_term, right_term, with_term, parted_term, gen_term};
ghost use Rattle.core_ir.specs.Scopes.{head_uses};
ghost use Rattle.core_subst.specs.Names.{used_in, used_in_right};

use core_ir::{Block, CoreGen, PartedLoop, Right, Var, WithLoop};
use sac_base::Memory;

/// Appends all uses of variables in the right side, those in its blocks included.
///
/// # Errors
///
/// `Memory`: there is none for them.
#[cycle(uses)]
pub fn add_right(right: &Right, out: &mut Vec<Var>) -> Result<(), Memory>
    ensures { OnOk result (out.new.items ≡ out.old.items ++ used_in_right (right_term right.now)) }
{
    match right {
        Right::If { cond, yes, no } => {
            add_all(&[*cond], out)?;
            add_block(yes, out)?;
            add_block(no, out)?;
            Ok(())
        }
        Right::Loop {
            start,
            test,
            body,
            ..
        } => {
            add_all(start, out)?;
            add_block(test, out)?;
            add_block(body, out)?;
            Ok(())
        }
        Right::With(w) => add_with(w, out),
        Right::Parted(p) => add_parted(p, out),
        _ => add_all(right.operands().as_slice(), out),
    }
}

#[cycle(uses)]
fn add_block(block: &Block, out: &mut Vec<Var>) -> Result<(), Memory>
    ensures { OnOk result (out.new.items ≡ out.old.items ++ used_in (block_term block.now)) }
{
    for binding in &block.lets {
        add_right(&binding.right, out)?;
    }
    add_all(&block.results, out)?;
    Ok(())
}

#[cycle(uses)]
fn add_with(with: &WithLoop, out: &mut Vec<Var>) -> Result<(), Memory>
    ensures { OnOk result (out.new.items ≡ out.old.items ++ used_in_right (with_term with.now)) }
{
    add_all(with.op.operands().as_slice(), out)?;
    for generator in &with.gens {
        add_head(generator, out)?;
        add_block(&generator.body, out)?;
    }
    Ok(())
}

#[cycle(uses)]
fn add_parted(parted: &PartedLoop, out: &mut Vec<Var>) -> Result<(), Memory>
    ensures { OnOk result (out.new.items ≡ out.old.items ++ used_in_right (parted_term parted.now)) }
{
    add_all(parted.op.operands().as_slice(), out)?;
    for part in &parted.parts {
        add_block(&part.body, out)?;
    }
    Ok(())
}

fn add_head(generator: &CoreGen, out: &mut Vec<Var>) -> Result<(), Memory>
    ensures { OnOk result (out.new.items ≡ out.old.items ++ head_uses (gen_term generator.now).head) }
{
    add_option(generator.lower, out)?;
    add_option(generator.upper, out)?;
    add_option(generator.step, out)?;
    add_option(generator.width, out)?;
    Ok(())
}

fn add_option(x: Option<Var>, out: &mut Vec<Var>) -> Result<(), Memory>
    ensures { OnOk result (out.new.items ≡ out.old.items ++ option_to_list x) }
{
    match x {
        Some(x) => add_all(&[x], out),
        None => Ok(()),
    }
}

fn add_all(xs: &[Var], out: &mut Vec<Var>) -> Result<(), Memory>
    ensures { OnOk result (out.new.items ≡ out.old.items ++ xs.now) }
{
    out.extend_from_slice(xs)?;
    Ok(())
}

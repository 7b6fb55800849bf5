//! Steps that are appended, and what right sides hand on.

ghost use Rattle.std.specs.Prelude.{◌≡◌, IfOk};
ghost use Rattle.core_ir.specs.View.{right_term};
ghost use Rattle.counted_code.specs.Prompt.{hands};
ghost use Rattle.counted_code.specs.Terms.{Binding};
ghost use Rattle.counted_code.specs.View.{code_right_term};
ghost use Rattle.ref_counts.specs.Endings.{ends_some, read_place};
ghost use Rattle.ref_rules.specs.Appending.{Appended};

use core_ir::{Right, Var};
use counted_code::{CodeLet, CodeRight, CodeStep};
use sac_base::{Memory, Site};
use std::alloc::Global;

/// An equal list.
pub fn copy_vars(alloc: Global, vars: &[Var]) -> Result<Vec<Var>, Memory>
    ensures { IfOk result (λ v. v.items ≡ vars.now) }
{
    Ok(Vec::from_slice(alloc, vars)?)
}

/// The variables whose references the right side hands on.
pub fn handed_on(alloc: Global, right: &Right) -> Result<Vec<Var>, Memory>
    ensures { IfOk result (λ v. v.items ≡ hands (right_term right.now)) }
{
    match right {
        Right::Copy(x) => copy_vars(alloc, &[*x]),
        Right::Check(x, _) => copy_vars(alloc, &[*x]),
        Right::Loop { start, .. } => copy_vars(alloc, start),
        Right::Call { args, .. } => copy_vars(alloc, args),
        _ => Ok(Vec::new(alloc)),
    }
}

/// Whether references may end in the right side: it hands all on that it uses before `read_from`, or is a conditional, whose branches can release them.
pub fn may_end(right: &Right) -> bool
    ensures { result ≡ ends_some (right_term right.now) }
{
    matches!(
        right,
        Right::Copy(_)
            | Right::Check(..)
            | Right::If { .. }
            | Right::Loop { .. }
            | Right::Call { .. }
    )
}

/// The place of the first use that the right side does not hand on, or of the first use after a right side that hands on all or nothing.
pub fn read_from(right: &Right, from: usize, to: usize) -> usize
    ensures { result ≡ read_place (right_term right.now) from to }
{
    match right {
        Right::Loop { start, .. } => from.saturating_add(1).saturating_add(start.len()),
        _ => to,
    }
}

/// Appends a binding.
pub fn push_binding(
    targets: Vec<Var>,
    site: Site,
    right: CodeRight,
    steps: &mut Vec<CodeStep>,
) -> Result<(), Memory>
    ensures { IfOk result (λ done. Appended steps.old.items steps.new.items (Binding targets.items site (code_right_term right))) }
{
    steps.push(CodeStep::Bind(CodeLet {
        targets,
        site,
        right,
    }))?;
    Ok(())
}

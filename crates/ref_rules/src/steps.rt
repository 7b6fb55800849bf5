//! Steps that keep and release.

ghost use Rattle.std.specs.Prelude.{IfOk};
ghost use Rattle.counted_laws.specs.placing.Placing.{keeps, releases};
ghost use Rattle.ref_rules.specs.Appending.{Appended};

use core_ir::Var;
use counted_code::CodeStep;
use sac_base::Memory;

/// Appends a Release of each variable.
///
/// # Errors
///
/// `Memory`: there is none for the steps.
pub fn push_releases(vars: &[Var], steps: &mut Vec<CodeStep>) -> Result<(), Memory>
    ensures { IfOk result (λ done. Appended steps.old.items steps.new.items (releases vars.now)) }
{
    for x in vars {
        steps.push(CodeStep::Release(*x))?;
    }
    Ok(())
}

/// Appends a Keep of each variable.
///
/// # Errors
///
/// `Memory`: there is none for the steps.
pub fn push_keeps(vars: &[Var], steps: &mut Vec<CodeStep>) -> Result<(), Memory>
    ensures { IfOk result (λ done. Appended steps.old.items steps.new.items (keeps vars.now)) }
{
    for x in vars {
        steps.push(CodeStep::Keep(*x))?;
    }
    Ok(())
}

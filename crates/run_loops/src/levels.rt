//! Conditions, and how deep calls may go.

ghost use Rattle.sac_base.specs.Parts.{condition as condition_value};
ghost use Rattle.counted_code.specs.Values.{Heap as MachineHeap, read};
ghost use Rattle.run_kernels.specs.Calls.{calls_at};
ghost use Rattle.run_loops.specs.Running.{calls_in, Deeper, SaysTruth};
ghost use Rattle.std.specs.Prelude.{◌≡◌};
ghost use Rattle.run_values.specs.Shown.{value_of};

use crate::state::Context;
use counted_code::CodeFun;
use run_kernels::CallLevels;
use run_values::RunValue;
use sac_base::{FaultKind, Site, Stop, fault};

/// What a condition says: 0 is false, and any other number is true.
pub fn condition(value: RunValue, site: Site) -> Result<bool, Stop>
    ensures { (m : MachineHeap) → SaysTruth result site (condition_value (read m (value_of value))) }
{
    match value.as_word()? {
        Some(n) => Ok(n != 0),
        None => Err(fault(FaultKind::F3, site)),
    }
}

/// How far a function of a group may go on that is called here.
pub fn deeper<'a>(
    function: &CodeFun,
    group: u32,
    site: Site,
    context: &Context<'a>,
) -> Result<Context<'a>, Stop>
    ensures { Deeper result context.now function.now.inline site }
{
    let mut inner = *context;
    if function.inline {
        if context.nest == 0 {
            return Err(fault(FaultKind::F10, site));
        }
        inner.nest = context.nest - 1;
    } else {
        if context.left == 0 {
            return Err(fault(FaultKind::F10, site));
        }
        inner.left = context.left - 1;
        inner.nest = context.code.get().functions.len() as u64;
        inner.tried = tried_within(group, context);
    }
    Ok(inner)
}

// At how many levels that are left calls are tried as kernels within a call of a group that is not run as one. Where it has a kernel, the call went too
// deep for it, and so would the calls within: the next ones are tried an eighth as many levels deeper as the kernel has. A try that goes too deep costs
// about as much as a turn of the evaluator for eight levels, and a kernel that is run as high as it can be saves most of the calls that stand below.
fn tried_within(group: u32, context: &Context<'_>) -> u64 {
    if context.left > context.tried {
        return context.tried;
    }
    match context.code.plain().kernel_levels(group) {
        Some(levels) => context.left.saturating_sub((levels / 8).max(1)),
        None => context.tried,
    }
}

/// The program and how far calls may go on, as kernels of loops take them.
pub fn levels_of<'a>(context: &Context<'a>) -> CallLevels<'a>
    ensures calls { calls_at result ≡ calls_in context.now }
    ensures turns { result.turns ≡ context.now.turns }
{
    CallLevels {
        plain: context.code.plain(),
        turns: context.turns,
        left: context.left,
        nest: context.nest,
        tried: context.tried,
    }
}

//! What the kernels of a loop's cells may call.

ghost use Rattle.kernel_callees.specs.Calls.{Allows};
ghost use Rattle.phase_kernels.specs.Calls.{calls_in};

use kernel_callees::{Callees, Lowering};
use run_loops::Context;

// How much code the calls of one kernel may become, so that a program whose functions call one another many times cannot make lowering slow.
const CALL_BUDGET: u64 = 1 << 20;

/// Kernels with calls of the functions of the code that runs, as far as they may go on.
pub fn lowering_of<'a>(context: &Context<'a>) -> Lowering<'a>
    ensures { Allows result (calls_in context.now) }
{
    Lowering {
        alloc: context.alloc,
        callees: Some(Callees {
            code: context.code.get(),
            left: context.left,
            nest: context.nest,
            budget: CALL_BUDGET,
        }),
    }
}

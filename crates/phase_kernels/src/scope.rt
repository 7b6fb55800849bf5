//! What is known of variables before the first cell.

ghost use Rattle.std.specs.Prelude.{IfOk};
ghost use Rattle.kernel_code.specs.Relations.{IsScope};
ghost use Rattle.phase_loop_cells.specs.Opened.{lent_env};
ghost use Rattle.run_values.specs.Scopes.{current};

use buffer_heap::Heap;
use core_ir::Var;
use run_kernels::{Scope, scope_of};
use run_values::Frames;
use sac_base::Memory;
use std::alloc::Global;

/// The scope of these variables of the call that runs, whose buffers are in a heap that lends them.
pub fn lent_scope<'a>(
    alloc: Global,
    live: &[Var],
    frames: &Frames<'_>,
    heap: &'a Heap,
) -> Result<Scope<'a>, Memory>
    ensures { IfOk result (λ s. IsScope s.buffers.items (lent_env heap.now (current frames.now)) s.known.items) }
{
    heap.buffers_are_numbered();
    scope_of(alloc, live, frames, heap)
}

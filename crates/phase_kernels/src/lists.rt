//! The kernels of a phase, made for it or kept from another one.

ghost use Rattle.std.specs.Prelude.{◌≡◌, [], IfOk, List};
ghost use Rattle.core_ir.specs.Meaning.{Env};
ghost use Rattle.kept_kernels.specs.Bodies.{source_bodies};
ghost use Rattle.kernel_callees.specs.Calls.{Allows};
ghost use Rattle.kernel_code.specs.Calls.{Calls};
ghost use Rattle.kernel_code.specs.Relations.{IsScope};
ghost use Rattle.kernel_rows.specs.Kernels.{AreCellKernels};
ghost use Rattle.phase_kernels.specs.Listed.{listed};
ghost use Rattle.sac_base.specs.Arrays.{ArrayValue};

use array_with_loops::Range;
use core_ir::Var;
use kept_kernels::{LoopTable, source_kernels};
use kernel_callees::Lowering;
use kernel_rows::CellKernel;
use kernel_tree::Held;
use run_loops::CellSource;
use sac_base::{Form, Memory};
use std::alloc::Global;

/// The kernels of a phase.
#[derive(Drop)]
pub enum KernelList<'a> {
    /// Made for this phase.
    Made(Vec<Option<CellKernel>>),
    /// Kept from one phase of the loop to the next.
    Kept(&'a [Option<CellKernel>]),
}

impl<'a> KernelList<'a> {
    /// None.
    pub fn none(alloc: Global) -> KernelList<'a>
        ensures { listed result ≡ [] }
    {
        KernelList::Made(Vec::new(alloc))
    }

    /// The kernels.
    pub fn all(&self) -> &[Option<CellKernel>]
        ensures { result.now ≡ listed self.now }
    {
        match self {
            KernelList::Made(kernels) => kernels,
            KernelList::Kept(kernels) => kernels,
        }
    }
}

/// The kernel of each generator or part, or none: those that the table keeps, and else made now.
pub fn kernels_for<'a>(
    table: &'a LoopTable<'_>,
    lowering: Lowering<'_>,
    source: &CellSource<'_>,
    ranges: &[Range],
    form: &Form,
    known: &[(Var, Held)],
) -> Result<KernelList<'a>, Memory>
    ensures { (c : Calls) (bs : List ArrayValue) (e : Env) → Allows lowering.entry c → IsScope bs e known.now
        → IfOk result (λ kernels. AreCellKernels c bs e form.now (source_bodies source.now) (listed kernels)) }
{
    if let Some(kernels) = table.kernels_of(source, ranges, form, known) {
        return Ok(KernelList::Kept(kernels));
    }
    let made = source_kernels(lowering, source, ranges, form, known)?;
    Ok(KernelList::Made(made))
}

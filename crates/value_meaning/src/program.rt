//! A whole program.

ghost use Rattle.std.specs.Prelude.{◌≡◌, ◌<◌, ◌++◌, IfOk, length};
ghost use Rattle.sac_base.specs.declared.site.Site.{Site as Place};
ghost use Rattle.sac_ast.specs.View.{program};
ghost use Rattle.source_meaning.specs.Calls.{outcome};
ghost use Rattle.value_meaning.specs.Evaluation.{main_at};
ghost use Rattle.array_ops.specs.Tells.{TellsItems, IsOutcome};

use crate::evaluate::{Context, run_function};
use array_ops::copy_all;
use sac_ast::{Function, Program};
use sac_base::{Array, Caps, FaultKind, Memory, Outcome, Stop, fault};
use source_meaning::all_fit;
use std::alloc::Global;

/// Runs a program on arguments, and gives what its meaning is: the results of `main`, or the first fault.
pub fn plain_run(
    alloc: Global,
    checked: &Program,
    args: &[Array],
    caps: Caps,
) -> Result<Outcome, Memory>
    ensures { IfOk result (λ o. IsOutcome o (outcome (program checked.now) args.now caps)) }
{
    match run_program(alloc, checked, args, caps) {
        Ok(values) => Ok(Outcome::Values(values)),
        Err(Stop::Faulted(fault)) => Ok(Outcome::Faulted(fault)),
        Err(Stop::Memory) => Err(Memory),
    }
}

fn run_program(
    alloc: Global,
    checked: &Program,
    args: &[Array],
    caps: Caps,
) -> Result<Vec<Array>, Stop>
    ensures { TellsItems result (outcome (program checked.now) args.now caps) }
{
    let functions = checked.functions.as_slice();
    match checked.main_place() {
        None => Err(fault(FaultKind::F7, checked.end)),
        Some(place) => run_main(alloc, functions, place, args, caps),
    }
}

fn run_main(
    alloc: Global,
    functions: &[Function],
    place: usize,
    args: &[Array],
    caps: Caps,
) -> Result<Vec<Array>, Stop>
    requires { place < length functions.now }
    ensures { (end : Place) → TellsItems result (main_at functions.now place args.now caps end) }
{
    let current = &functions[place];
    if !all_fit(&current.params, args) {
        return Err(fault(FaultKind::F7, current.site));
    }
    let context = Context {
        alloc,
        functions,
        current,
        turns: caps.turns,
        left: caps.depth,
        nest: functions.len() as u64,
    };
    let args = copy_all(alloc, args)?;
    run_function(args, &context)
}

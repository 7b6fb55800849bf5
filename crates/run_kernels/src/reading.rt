//! Whether a loop reads buffers and does nothing else with them.

ghost use Rattle.std.specs.Prelude.{◌≡◌, All, IsTrue};
ghost use Rattle.counted_code.specs.View.{code_right_term, code_term, step_term};
ghost use Rattle.phase_laws.specs.only_reads.Reads.{OnlyReads, Outside, RightOnlyReads};
ghost use Rattle.run_kernels.specs.Plain.{plain_in};
ghost use Rattle.run_kernels.specs.Scopes.{StepOnlyReads, refers};
ghost use Rattle.run_values.specs.Scopes.{current};

use core_ir::Var;
use counted_code::{CodeBlock, CodeRight, CodeStep};
use run_values::{Frames, RunValue};

/// Whether a right side is a loop that only reads the buffers to which variables of the call that runs refer, and calls groups alone that a table says to be
/// plain. False also where it has something that no kernel does.
pub fn only_reads(right: &CodeRight, frames: &Frames<'_>, plain: &[bool]) -> bool
    ensures { IsTrue result → RightOnlyReads (plain_in plain.now) (refers (current frames.now)) (code_right_term right.now) }
{
    match right {
        CodeRight::Loop { .. } => right_reads(right, frames, plain),
        _ => false,
    }
}

#[cycle(reading)]
pub(crate) fn block_reads(block: &CodeBlock, frames: &Frames<'_>, plain: &[bool]) -> bool
    ensures { IsTrue result → OnlyReads (plain_in plain.now) (refers (current frames.now)) (code_term block.now) }
{
    for step in &block.steps {
        if !step_reads(step, frames, plain) {
            return false;
        }
    }
    all_outside(&block.results, frames)
}

#[cycle(reading)]
fn step_reads(step: &CodeStep, frames: &Frames<'_>, plain: &[bool]) -> bool
    ensures { IsTrue result → StepOnlyReads (plain_in plain.now) (refers (current frames.now)) (step_term step.now) }
{
    match step {
        CodeStep::Bind(binding) => right_reads(&binding.right, frames, plain),
        CodeStep::Keep(x) | CodeStep::Release(x) => is_outside(*x, frames),
    }
}

#[cycle(reading)]
fn right_reads(right: &CodeRight, frames: &Frames<'_>, plain: &[bool]) -> bool
    ensures { IsTrue result → RightOnlyReads (plain_in plain.now) (refers (current frames.now)) (code_right_term right.now) }
{
    match right {
        CodeRight::Const(_)
        | CodeRight::Unary(_, _)
        | CodeRight::Binary(_, _, _)
        | CodeRight::Literal(_)
        | CodeRight::Select(_, _)
        | CodeRight::Dim(_)
        | CodeRight::Always(_) => true,
        CodeRight::Copy(x) | CodeRight::Check(x, _) => is_outside(*x, frames),
        CodeRight::Replace(a, _, _) => is_outside(*a, frames),
        CodeRight::Call { group, args } => is_plain(*group as usize, plain)
            && all_outside(args, frames),
        CodeRight::If { yes, no, .. } => block_reads(yes, frames, plain)
            && block_reads(no, frames, plain),
        CodeRight::Loop {
            start,
            test,
            body,
            ..
        } => {
            if !all_outside(start, frames) {
                return false;
            }
            block_reads(test, frames, plain) && block_reads(body, frames, plain)
        }
        _ => false,
    }
}

// Whether none of these variables refers to a buffer.
fn all_outside(xs: &[Var], frames: &Frames<'_>) -> bool
    ensures { IsTrue result → All (Outside (refers (current frames.now))) xs.now }
{
    for x in xs {
        if !is_outside(*x, frames) {
            return false;
        }
    }
    true
}

// Whether a variable refers to no buffer.
fn is_outside(x: Var, frames: &Frames<'_>) -> bool
    ensures { IsTrue result → Outside (refers (current frames.now)) x }
{
    match frames.get(x) {
        RunValue::Buffer(_, _, _) => false,
        _ => true,
    }
}

// Whether a table says that a group is plain.
pub(crate) fn is_plain(group: usize, plain: &[bool]) -> bool
    ensures { result ≡ plain_in plain.now group }
{
    match plain.get(group) {
        Some(plain) => *plain,
        None => false,
    }
}

//! Single steps.

ghost use Rattle.std.specs.Prelude.{◌≡◌};
ghost use Rattle.std.specs.List.{list_all};
ghost use Rattle.own_kernels.specs.Steps.{keeps_index as keeps, own_load as loads, own_step as own, target};

use kernel_tree::KernelStep;

// The register that a step writes.
fn target_of(step: KernelStep) -> Option<u8>
    ensures { result ≡ target step }
{
    match step {
        KernelStep::Set(to, _)
        | KernelStep::Move(to, _)
        | KernelStep::Neg(to, _)
        | KernelStep::Not(to, _)
        | KernelStep::Add(to, _, _)
        | KernelStep::Sub(to, _, _)
        | KernelStep::Mul(to, _, _)
        | KernelStep::Div(to, _, _, _)
        | KernelStep::Rem(to, _, _, _)
        | KernelStep::Min(to, _, _)
        | KernelStep::Max(to, _, _)
        | KernelStep::Eq(to, _, _)
        | KernelStep::Ne(to, _, _)
        | KernelStep::Lt(to, _, _)
        | KernelStep::Le(to, _, _)
        | KernelStep::Gt(to, _, _)
        | KernelStep::Ge(to, _, _)
        | KernelStep::And(to, _, _)
        | KernelStep::Or(to, _, _)
        | KernelStep::Load1(to, _, _, _)
        | KernelStep::Load2(to, _, _, _, _) => Some(to),
        KernelStep::Fail(_, _) => None,
    }
}

// Whether a register that is written, if one is, is none of an index of so many components.
fn keeps_index(to: Option<u8>, rank: usize) -> bool
    ensures { result ≡ keeps rank to }
{
    match to {
        Some(to) => rank <= to as usize,
        None => true,
    }
}

// Whether what a step loads of a buffer is the element at the index in the first registers.
fn is_own_load(step: KernelStep, rank: usize, buffer: u8) -> bool
    ensures { result ≡ loads rank buffer step }
{
    match step {
        KernelStep::Load1(_, other, x, _) => other != buffer || rank == 1 && x == 0,
        KernelStep::Load2(_, other, x, y, _) => other != buffer || rank == 2 && x == 0 && y == 1,
        _ => true,
    }
}

fn is_own_step(step: &KernelStep, rank: usize, buffer: u8) -> bool
    ensures { result ≡ own rank buffer step.now }
{
    keeps_index(target_of(*step), rank) && is_own_load(*step, rank, buffer)
}

/// Whether each of these steps leaves the registers of the index alone, and loads of the buffer the element at the index alone.
pub fn is_own_line(line: &[KernelStep], rank: usize, buffer: u8) -> bool
    ensures { result ≡ list_all (own rank buffer) line.now }
{
    line.iter().all(|step| is_own_step(step, rank, buffer))
}

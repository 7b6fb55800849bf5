//! The kernels of a loop's cells.

ghost use Rattle.std.specs.Prelude.{◌≡◌};
ghost use Rattle.std.specs.List.{list_all};
ghost use Rattle.kernel_tree.specs.View.{kernel_term};
ghost use Rattle.own_kernels.specs.Kernels.{is_apart, is_in, is_kernel_for as kernel_for, is_own_kernel as own_kernel, kernels_own, holds_alone, parts_own};
ghost use Rattle.own_kernels.specs.Steps.{is_own};

use crate::blocks::is_own_block;
use core_ir::Var;
use kernel_code::held;
use kernel_rows::CellKernel;
use kernel_tree::Held;

/// Whether a kernel reads of a buffer the element at its own index alone: no step writes a register of the index, and what is loaded
/// of the buffer is the element at all components of the index, in their order.
pub fn reads_own(kernel: &CellKernel, buffer: u8) -> bool
    ensures { result ≡ is_own kernel.now.rank buffer (kernel_term kernel.now.block) }
{
    is_own_block(kernel.block.tree(), kernel.rank, buffer)
}

// Whether there is a kernel, for indices of so many components, that reads its own element alone.
fn is_own_kernel(kernel: &Option<CellKernel>, rank: usize, buffer: u8) -> bool
    ensures { result ≡ own_kernel rank buffer kernel.now }
{
    match kernel {
        Some(kernel) => kernel.rank == rank && reads_own(kernel, buffer),
        None => false,
    }
}

// Whether there is a kernel, for indices of so many components.
fn is_kernel_for(kernel: &Option<CellKernel>, rank: usize) -> bool
    ensures { result ≡ kernel_for rank kernel.now }
{
    match kernel {
        Some(kernel) => kernel.rank == rank,
        None => false,
    }
}

fn all_are_for(kernels: &[Option<CellKernel>], rank: usize) -> bool
    ensures { result ≡ list_all (kernel_for rank) kernels.now }
{
    kernels.iter().all(|kernel| is_kernel_for(kernel, rank))
}

/// Whether all of these kernels are there, are for indices of so many components, and read of a buffer the element at their own index
/// alone.
pub fn all_read_own(kernels: &[Option<CellKernel>], rank: usize, buffer: u8) -> bool
    ensures { result ≡ kernels_own kernels.now rank buffer }
{
    kernels
        .iter()
        .all(|kernel| is_own_kernel(kernel, rank, buffer))
}

// Whether an array is held in a buffer.
fn is_held_in(place: Held, buffer: u8) -> bool
    ensures { result ≡ is_in buffer place }
{
    match place {
        Held::Whole(_, _, other) => other == buffer,
        _ => false,
    }
}

// Whether an entry is the variable's, or holds no array in the buffer.
fn is_entry_apart(entry: &(Var, Held), array: Var, buffer: u8) -> bool
    ensures { result ≡ is_apart array buffer entry.now }
{
    !is_held_in(entry.1, buffer) || entry.0 == array
}

/// Whether no other variable has its array in a buffer.
pub fn is_only_holder(known: &[(Var, Held)], array: Var, buffer: u8) -> bool
    ensures { result ≡ holds_alone known.now array buffer }
{
    known
        .iter()
        .all(|entry| is_entry_apart(entry, array, buffer))
}

/// Whether each of so many parts has a kernel for indices of so many components, at most 8, that reads of a variable's array the
/// element at its own index alone: the array is in a buffer that no other variable has, or is not known to the kernels.
pub fn parts_read_own(
    kernels: &[Option<CellKernel>],
    count: usize,
    known: &[(Var, Held)],
    array: Var,
    rank: usize,
) -> bool
    ensures { result ≡ parts_own kernels.now count known.now array rank }
{
    if kernels.len() != count || rank > 8 {
        return false;
    }
    match held(array, known) {
        Some(Held::Whole(_, _, buffer)) => {
            is_only_holder(known, array, buffer) && all_read_own(kernels, rank, buffer)
        }
        None => all_are_for(kernels, rank),
        _ => false,
    }
}

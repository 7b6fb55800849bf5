//! How many bodies of a program's loops become kernels.

use core_ir::{CoreOp, Var};
use counted_code::{Code, CodeFun, CodeLet, CodePart, CodeParted, CodeRight, CodeStep, CodeWith};
use data_text::read_arrays;
use kernel_buffers::Buffer;
use kernel_callees::{Callees, Lowering};
use kernel_rows::{CellKernel, cell_kernel};
use kernel_tree::{Held, Registers};
use sac_base::{Array, Base, Cell, Form, Grid};
use std::alloc::Global;
use strip_runs::{StripRoom, run_strip};

/// The most turns of a loop in a strip.
const TURNS: u64 = 1_000_000;

/// As many cells as a strip has at most.
const WIDTH: usize = 512;

/// How much code the calls of one kernel may become, as in a run.
const CALL_BUDGET: u64 = 1 << 20;

/// What is counted of the bodies of loops.
#[derive(Clone, Copy)]
pub struct Counts {
    pub bodies: u64,
    /// Those that have a kernel.
    pub kernels: u64,
    /// Those whose kernel has strips.
    pub strips: u64,
    /// Those whose strips compute the cells of the first row all at once.
    pub rows: u64,
}

/// What is known before a loop: the arrays of the input and constants, short ones as their numbers, and of what earlier loops make the rank.
#[derive(Drop)]
struct Known<'a> {
    held: Vec<(Var, Held)>,
    buffers: Vec<Buffer<'a>>,
}

impl<'a> Known<'a> {
    // Adds a variable and its array, if that has a rank that kernels read.
    fn push(&mut self, x: Var, array: &'a Array) -> Option<()> {
        let number = u8::try_from(self.buffers.len()).ok()?;
        self.buffers.push(Buffer::of(array)).ok()?;
        let held = match array.shape().rank() {
            0 => Held::Number(array.base(), *array.cells().first()?),
            1 => vector_held(array.base(), array.cells(), number),
            2 => Held::Whole(array.base(), 2, number),
            _ => return Some(()),
        };
        self.held.push((x, held)).ok()
    }

    // Adds a variable and the numbers that a loop makes whose frame the run alone knows. Its buffer is not there.
    fn push_made(&mut self, x: Var, made: &CodeWith) -> Option<()> {
        let rank = match (&made.op, made.gens.first()) {
            (CoreOp::Genarray { .. }, Some(generator)) => generator.names.len(),
            _ => 0,
        };
        if rank < 1 || rank > 2 {
            return Some(());
        }
        self.held
            .push((x, Held::Whole(Base::Int, rank as u8, u8::MAX)))
            .ok()
    }
}

// A vector: its numbers where it is short, and else its buffer.
fn vector_held(base: Base, cells: &[Cell], number: u8) -> Held {
    if cells.len() > 8 {
        return Held::Whole(base, 1, number);
    }
    let mut numbers = [0; 8];
    for k in 0..cells.len() {
        numbers[k] = cells[k];
    }
    Held::Numbers(base, numbers, cells.len() as u8)
}

// The arrays of the input, one for each parameter.
fn read_input(alloc: Global, main: &CodeFun, input: &[u8]) -> Option<Vec<Array>> {
    let mut bases = Vec::new(alloc);
    for (_, ty) in &main.params {
        bases.push(ty.base).ok()?;
    }
    read_arrays(alloc, input, &bases).ok()
}

// Kernels with calls of a program's functions, so many levels deep.
fn with_calls(alloc: Global, code: &Code, levels: u64) -> Lowering<'_> {
    Lowering {
        alloc,
        callees: Some(Callees {
            code,
            left: levels,
            nest: code.functions.len() as u64,
            budget: CALL_BUDGET,
        }),
    }
}

/// Counts the bodies of the loops over parts that stand in a program's main, where calls may go so many levels deep.
pub fn count_kernels(alloc: Global, code: &Code, input: &[u8], levels: u64) -> Option<Counts> {
    let main = code.functions.get(code.main as usize)?;
    let args = read_input(alloc, main, input)?;
    let mut known = Known {
        held: Vec::new(alloc),
        buffers: Vec::new(alloc),
    };
    for (param, arg) in main.params.iter().zip(&args) {
        known.push(param.0, arg)?;
    }
    let lowering = with_calls(alloc, code, levels);
    let mut counts = Counts {
        bodies: 0,
        kernels: 0,
        strips: 0,
        rows: 0,
    };
    for step in &main.body.steps {
        if let CodeStep::Bind(binding) = step {
            see_binding(lowering, binding, &mut known, &mut counts)?;
        }
    }
    Some(counts)
}

// Counts the bodies of a loop over parts, and knows what is bound else.
fn see_binding<'a>(
    lowering: Lowering<'_>,
    binding: &'a CodeLet,
    known: &mut Known<'a>,
    counts: &mut Counts,
) -> Option<()> {
    match (&binding.right, binding.targets.first()) {
        (CodeRight::Parted(parted), _) => count_parts(lowering, parted, known, counts),
        (CodeRight::Const(array), Some(target)) => known.push(*target, array),
        (CodeRight::With(made), Some(target)) => known.push_made(*target, made),
        _ => Some(()),
    }
}

fn count_parts(
    lowering: Lowering<'_>,
    parted: &CodeParted,
    known: &Known<'_>,
    counts: &mut Counts,
) -> Option<()> {
    let form = Form {
        base: parted.base,
        shape: parted.cell.copy(),
    };
    for part in &parted.parts {
        let kernel = part_kernel(lowering, part, &form, known);
        counts.bodies = counts.bodies.wrapping_add(1);
        if let Some(kernel) = kernel {
            count_kernel(lowering.alloc, &kernel, &part.grid, known, counts)?;
        }
    }
    Some(())
}

fn part_kernel(
    lowering: Lowering<'_>,
    part: &CodePart,
    form: &Form,
    known: &Known<'_>,
) -> Option<CellKernel> {
    let rank = part.grid.axes().len();
    cell_kernel(
        lowering,
        &part.body,
        part.index,
        &[],
        rank,
        form,
        &known.held,
    )
    .ok()?
}

fn count_kernel(
    alloc: Global,
    kernel: &CellKernel,
    grid: &Grid,
    known: &Known<'_>,
    counts: &mut Counts,
) -> Option<()> {
    counts.kernels = counts.kernels.wrapping_add(1);
    if kernel.strips.is_none() {
        return Some(());
    }
    counts.strips = counts.strips.wrapping_add(1);
    if runs_first_row(alloc, kernel, grid, &known.buffers)? {
        counts.rows = counts.rows.wrapping_add(1);
    }
    Some(())
}

// Whether strips compute the cells of a grid's first row all at once.
fn runs_first_row(
    alloc: Global,
    kernel: &CellKernel,
    grid: &Grid,
    buffers: &[Buffer<'_>],
) -> Option<bool> {
    let mut registers: Registers = [0; 256];
    let mut count = 0;
    for (register, axis) in registers.iter_mut().zip(grid.axes()) {
        *register = Cell::try_from(axis.lo).ok()?;
        count = usize::try_from(axis.hi.wrapping_sub(axis.lo)).ok()?;
    }
    let strips = kernel.strips.as_ref()?;
    let mut room = StripRoom::new(alloc, strips.size()).ok()?;
    let mut cells = vec![in alloc; 0; count.min(WIDTH)].ok()?;
    Some(run_strip(strips, buffers, &registers, TURNS, &mut room, &mut cells))
}

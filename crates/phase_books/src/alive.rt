//! Variables whose values can be read.

ghost use Rattle.std.specs.Prelude.{IfOk, IsTrue};
ghost use Rattle.phase_books.specs.Alive.{AreAlive, IsAlive};
ghost use Rattle.run_values.specs.Scopes.{current};
ghost use Rattle.run_values.specs.Shown.{value_of};

use crate::mentions::mention_source;
use buffer_heap::Heap;
use core_ir::Var;
use run_loops::CellSource;
use run_values::{Frames, RunValue};
use sac_base::Memory;
use std::alloc::Global;

/// The variables that the cells of a source mention, and the bounds of its generators, whose values can be read, each once: what is looked up among them, and
/// the buffers that kernels read, are as few as they can be. One whose reference has gone may be among them, where others keep its buffer.
pub fn alive_in(
    alloc: Global,
    source: &CellSource<'_>,
    frames: &Frames<'_>,
    heap: &Heap,
) -> Result<Vec<Var>, Memory>
    ensures { IfOk result (λ xs. AreAlive heap.now (current frames.now) xs.items) }
{
    let mut mentioned = Vec::new(alloc);
    mention_source(source, &mut mentioned)?;
    mentioned.sort_unstable_by_key(|x: &Var| x.0);
    mentioned.dedup_by_key(|x: &mut Var| x.0);
    alive_among(alloc, &mentioned, frames, heap)
}

fn alive_among(
    alloc: Global,
    variables: &[Var],
    frames: &Frames<'_>,
    heap: &Heap,
) -> Result<Vec<Var>, Memory>
    ensures { IfOk result (λ xs. AreAlive heap.now (current frames.now) xs.items) }
{
    let mut alive = Vec::new(alloc);
    for x in variables {
        if is_alive(heap, frames.get(*x)) {
            alive.push(*x)?;
        }
    }
    Ok(alive)
}

/// Whether the array of a value can be read.
pub fn is_alive(heap: &Heap, value: RunValue) -> bool
    ensures { IsTrue result → IsAlive heap.now (value_of value) }
{
    match value {
        RunValue::Unbound => false,
        RunValue::Word(_, _) | RunValue::Short(_, _) => true,
        RunValue::Buffer(_, id, _) => heap.is_held(id),
    }
}

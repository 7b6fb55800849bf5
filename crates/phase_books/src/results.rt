//! How phases begin and end.

ghost use Rattle.std.specs.Prelude.{◌≡◌, ◌≤◌, ℕ, ◌+◌, ◌%◌, ◌^◌, None, Some, true, IfOk, OnOk};
ghost use Rattle.buffer_heap.specs.Heaps.{Held, at};
ghost use Rattle.counted_code.specs.Loops.{claim as claimed, count_phase, settled};
ghost use Rattle.counted_code.specs.Values.{Heap as MachineHeap, is_small as is_small_shape};
ghost use Rattle.phase_count.specs.Tallies.{one_more};
ghost use Rattle.run_loops.specs.Loops.{IsBegun};
ghost use Rattle.run_loops.specs.Running.{IsAt, IsValue, Told};
ghost use Rattle.run_store.specs.Stands.{lender_of};
ghost use Rattle.run_store.specs.Targets.{target_of};
ghost use Rattle.sac_base.specs.Arrays.{size};
ghost use Rattle.phase_books.specs.Homes.{Has, WillHave, handed, new_behind};

use buffer_heap::Heap;
use phase_count::{OpenTally, PhaseCount};
use run_loops::State;
use run_store::{Target, claim, settle};
use run_values::RunValue;
use sac_base::{Base, Memory, Shape, Stop};
use std::alloc::Global;

/// What the workers of a phase leave besides its cells: their heap, and the tally that the phase's table is closed into.
#[derive(Drop)]
pub struct Books {
    pub home: Heap,
    pub count: OpenTally,
}

/// A phase that has begun: its result, whose cells are still to be written, and its books.
#[derive(Drop)]
pub struct Begun {
    pub target: Target,
    pub books: Books,
}

/// Begins a phase of so many positions, which is counted.
pub fn begin_phase(
    alloc: Global,
    shape: &Shape,
    positions: usize,
    state: &mut State<'_, '_>,
) -> Result<Begun, Memory>
    ensures begun { (m : MachineHeap) (n : ℕ) → n ≡ positions → IsAt state.old m
        → IfOk result (λ b. IsBegun (target_of b.target) state.new
        (claimed (is_small_shape shape.now) None (size shape.now) (count_phase true n m))) }
    ensures home { IfOk result (λ b. b.books.home ≡ new_behind state.new.heap.own) }
    ensures tally { (n : ℕ) → n ≡ positions → IfOk result (λ b. WillHave n b.books.count state.new.phases) }
    ensures others { (b : ℕ) (x : Held) → at state.old.heap.own b ≡ Some x → at state.new.heap.own b ≡ Some x }
    ensures frames { state.new.frames ≡ state.old.frames }
    ensures lender { lender_of state.new.heap ≡ lender_of state.old.heap }
{
    let handed_out = state.phases.hand_out(positions);
    let target = claim(alloc, &mut state.heap, shape)?;
    let Some(count) = handed_out else {
        return Err(Memory);
    };
    let home = Heap::behind(&state.heap.own);
    let books = Books { home, count };
    Ok(Begun { target, books })
}

/// Begins a phase of so many positions that claims no result, which is counted.
pub fn open_books(phases: &mut PhaseCount, heap: &Heap, positions: usize) -> Result<Books, Memory>
    ensures counted { OnOk result (phases.new ≡ one_more positions phases.old) }
    ensures home { IfOk result (λ b. b.home ≡ new_behind heap.now) }
    ensures tally { IfOk result (λ b. WillHave positions b.count phases.new) }
{
    let Some(count) = phases.hand_out(positions) else {
        return Err(Memory);
    };
    let home = Heap::behind(heap);
    Ok(Books { home, count })
}

/// Ends a phase without a fault: the main heap takes over the workers' heap, and the tally comes back.
pub fn end_phase(books: Books, state: &mut State<'_, '_>)
    requires empty { (b : ℕ) → at books.home b ≡ None }
    requires later { state.old.heap.own.births ≤ books.home.births }
    requires tally { Has books.count state.old.phases }
    ensures heap { state.new.heap ≡ record { own = handed state.old.heap.own books.home; lent = state.old.heap.lent } }
    ensures phases { state.new.phases ≡ state.old.phases }
    ensures frames { state.new.frames ≡ state.old.frames }
    ensures lender { lender_of state.new.heap ≡ lender_of state.old.heap }
{
    let Books { home, count } = books;
    state.heap.own.take_over(home);
    state.phases.take_back(count);
}

/// Ends a phase with a fault: what workers have left is given back, the main heap counts all that they have taken and given
/// back, and the tally comes back.
pub fn stop_phase(books: Books, state: &mut State<'_, '_>)
    requires tally { Has books.count state.old.phases }
    ensures taken { state.new.heap.own.taken ≡ (state.old.heap.own.taken + books.home.taken) % 2 ^ 64 }
    ensures given { state.new.heap.own.given ≡ (state.old.heap.own.given + books.home.taken) % 2 ^ 64 }
    ensures phases { state.new.phases ≡ state.old.phases }
    ensures frames { state.new.frames ≡ state.old.frames }
    ensures lender { lender_of state.new.heap ≡ lender_of state.old.heap }
{
    let Books { mut home, count } = books;
    home.clear();
    state.heap.own.absorb(home);
    state.phases.take_back(count);
}

/// The finished result.
pub fn finish_phase(
    target: Target,
    base: Base,
    shape: &Shape,
    state: &mut State<'_, '_>,
) -> Result<RunValue, Stop>
    ensures told { (m : MachineHeap) → IsAt state.old m
        → Told IsValue result state.new (settled (target_of target) (record { base = base; shape = shape.now; cells = target.cells.items }) m) }
    ensures frames { state.new.frames ≡ state.old.frames }
    ensures lender { lender_of state.new.heap ≡ lender_of state.old.heap }
{
    Ok(settle(&mut state.heap, target, base, shape)?)
}

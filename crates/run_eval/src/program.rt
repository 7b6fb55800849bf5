//! A whole program.

ghost use Rattle.std.specs.Prelude.{◌≡◌, ◌≤◌, ◌∷◌, [], IfOk, OnOk, map};
ghost use Rattle.core_facts.specs.calls.Arrays.{AllFull};
ghost use Rattle.counted_code.specs.Counts.{IsWellCounted};
ghost use Rattle.counted_code.specs.Outcome.{copied_out, cost_of, outcome_of, whole_run};
ghost use Rattle.counted_code.specs.Values.{Heap as MachineHeap, place_all as all_placed, read, release_all as all_released};
ghost use Rattle.counted_code.specs.View.{code_program};
ghost use Rattle.counted_marks.specs.Marks.{IsWellMarked};
ghost use Rattle.run_eval.specs.Outcomes.{new_heap, main_in, AreArrays, ArePlaced, IsCleared, HasCounters, KeepsChanges, OrMemory};
ghost use Rattle.run_eval.specs.Outcomes.{TellsCost, TellsTally, draws_under};
ghost use Rattle.run_loops.specs.Running.{IsAt, Told};
ghost use Rattle.phase_count.specs.Tallies.{counted_in};
ghost use Rattle.run_store.specs.Stands.{Stands, lender_of};
ghost use Rattle.run_values.specs.Shown.{value_of};
ghost use Rattle.array_ops.specs.Tells.{TellsItems};

use crate::blocks::run_function;
use crate::trace::Trace;
use buffer_heap::Heap;
use count_table::Tally;
use counted_code::Code;
use index_cutter::Cutting;
use phase_count::{PhaseCount, Totals, numbers_of};
use run_loops::{Context, CountedCode, Never, Outside, Phases, State};
use run_store::{Store, place_own, read_array, release, take_array};
use run_types::all_fit;
use run_values::{Frames, RunValue};
use sac_base::{Array, Caps, FaultKind, Memory, Site, Stop, fault};
use std::alloc::Global;
use std::mem;

/// How many workers there are, 1 to 64, how many positions a chunk has, or an equal share for each worker where that is not given, and the limits on
/// turns and nested calls.
#[derive(Clone, Copy, Debug, PartialEq, Eq)]
pub struct Plan {
    pub workers: u32,
    pub chunk: Option<u64>,
    pub caps: Caps,
}

/// Runs counted code on arguments, in one thread. The results are those of its main function, or there is the first fault.
///
/// After every answer, want of memory included, no buffer of the heap is live, and as many were given back as were taken.
pub fn run(
    alloc: Global,
    code: &Code,
    args: Vec<Array>,
    heap: &mut Heap,
    plan: Plan,
    trace: &mut Trace,
) -> Result<Vec<Array>, Stop>
    requires workers { (1 ≤ plan.workers) × (plan.workers ≤ 64) }
    requires counted { IsWellCounted (code_program code.now) }
    requires marked { IsWellMarked (code_program code.now) }
    requires new { heap.old ≡ new_heap }
    ensures outcome { TellsItems result (outcome_of (whole_run (code_program code.now) args.items plan.caps)) }
    ensures cleared { IsCleared heap.new }
    ensures cost { TellsCost result trace.new (cost_of (whole_run (code_program code.now) args.items plan.caps)) }
    ensures tally { TellsTally result trace.old.tally trace.new.tally (cost_of (whole_run (code_program code.now) args.items plan.caps))
        (draws_under plan (whole_run (code_program code.now) args.items plan.caps)) }
    ensures counters { HasCounters trace.new heap.new }
    ensures kept { KeepsChanges trace.old trace.new }
{
    run_code::<Never>(alloc, code, args, heap, plan, None, trace)
}

/// Runs counted code on arguments, and its with-loops outside of cells as they say.
///
/// Of the answers the same is told as of those of one thread.
pub fn run_with_phases<P: Phases + Drop>(
    alloc: Global,
    code: &Code,
    args: Vec<Array>,
    heap: &mut Heap,
    plan: Plan,
    phases: P,
    trace: &mut Trace,
) -> Result<Vec<Array>, Stop>
    requires runs { P.runs phases }
    requires workers { (1 ≤ plan.workers) × (plan.workers ≤ 64) }
    requires counted { IsWellCounted (code_program code.now) }
    requires marked { IsWellMarked (code_program code.now) }
    requires new { heap.old ≡ new_heap }
    ensures outcome { TellsItems result (outcome_of (whole_run (code_program code.now) args.items plan.caps)) }
    ensures cleared { IsCleared heap.new }
    ensures cost { TellsCost result trace.new (cost_of (whole_run (code_program code.now) args.items plan.caps)) }
    ensures tally { TellsTally result trace.old.tally trace.new.tally (cost_of (whole_run (code_program code.now) args.items plan.caps))
        (draws_under plan (whole_run (code_program code.now) args.items plan.caps)) }
    ensures counters { HasCounters trace.new heap.new }
    ensures kept { KeepsChanges trace.old trace.new }
{
    let outside = Outside::of(phases);
    run_code(alloc, code, args, heap, plan, Some(&outside), trace)
}

// Runs counted code on arguments.
fn run_code<P: Phases>(
    alloc: Global,
    code: &Code,
    args: Vec<Array>,
    heap: &mut Heap,
    plan: Plan,
    outside: Option<&Outside<P>>,
    trace: &mut Trace,
) -> Result<Vec<Array>, Stop>
    requires workers { (1 ≤ plan.workers) × (plan.workers ≤ 64) }
    requires counted { IsWellCounted (code_program code.now) }
    requires marked { IsWellMarked (code_program code.now) }
    requires new { heap.old ≡ new_heap }
    ensures outcome { TellsItems result (outcome_of (whole_run (code_program code.now) args.items plan.caps)) }
    ensures cleared { IsCleared heap.new }
    ensures cost { TellsCost result trace.new (cost_of (whole_run (code_program code.now) args.items plan.caps)) }
    ensures tally { TellsTally result trace.old.tally trace.new.tally (cost_of (whole_run (code_program code.now) args.items plan.caps))
        (draws_under plan (whole_run (code_program code.now) args.items plan.caps)) }
    ensures counters { HasCounters trace.new heap.new }
    ensures kept { KeepsChanges trace.old trace.new }
{
    let cutting = Cutting::of(plan.workers, plan.chunk);
    let (phases, before) = begin_phases(&mut trace.tally, cutting);
    let mut state = State {
        frames: Frames::new(alloc),
        heap: Store::of(mem::replace(heap, Heap::new(alloc))),
        phases,
    };
    let counted = CountedCode::of(alloc, code);
    let context = Context {
        alloc,
        code: &counted,
        turns: plan.caps.turns,
        left: plan.caps.depth,
        nest: code.functions.len() as u64,
        tried: plan.caps.depth,
    };
    let answer = run_main(args, &context, outside, &mut state);
    let State {
        frames: _,
        heap: used,
        phases,
    } = state;
    *heap = used.own;
    heap.clear();
    trace.taken = heap.taken();
    trace.given = heap.given();
    trace.reused = heap.reused();
    trace.phases = phases.number();
    give_back(answer, phases, before, cutting, &mut trace.tally)
}

// The phases of a run, which are closed into a tally until it is given back, and what the tally had before.
fn begin_phases(tally: &mut Tally, cutting: Cutting) -> (PhaseCount, Totals)
    ensures phases { (result.0.number ≡ 0) × (result.0.draws ≡ 0) }
    ensures before { (result.1.phases ≡ tally.old.phases) × (result.1.draws ≡ tally.old.draws) }
{
    let before = numbers_of(tally);
    let phases = PhaseCount::of(mem::replace(tally, Tally::new()), cutting);
    (phases, before)
}

// The answer of a run, whose phases were closed into the tally. A run begins and ends outside of cells, so that it still has
// the tally that it began with.
fn give_back(
    answer: Result<Vec<Array>, Stop>,
    phases: PhaseCount,
    before: Totals,
    cutting: Cutting,
    tally: &mut Tally,
) -> Result<Vec<Array>, Stop>
    ensures { OrMemory answer result ((tally.new ≡ counted_in before.phases before.draws phases)
        × (phases.workers ≡ cutting.workers) × (phases.chunk ≡ cutting.chunk)) }
{
    match phases.into_tally(before, cutting) {
        Some(own) => {
            *tally = own;
            answer
        }
        None => Err(Stop::Memory),
    }
}

// The first place of a source, which stands for the site of a main function that is not there.
const START: Site = Site { line: 1, col: 1 };

// Runs the main function on arguments.
fn run_main<P: Phases>(
    args: Vec<Array>,
    context: &Context<'_>,
    outside: Option<&Outside<P>>,
    state: &mut State<'_, '_>,
) -> Result<Vec<Array>, Stop>
    ensures told { (m : MachineHeap) → IsAt state.old m → Told AreArrays result state.new (main_in context.now args.items m) }
    ensures full { OnOk result (AllFull args.items) }
    ensures lender { lender_of state.new.heap ≡ lender_of state.old.heap }
{
    let code = context.code.get();
    let Some(main) = code.functions.get(code.main as usize) else {
        return Err(fault(FaultKind::F7, START));
    };
    let placed = place_all(context.alloc, &mut state.heap, args)?;
    if !all_fit(&main.params, &placed) {
        return Err(fault(FaultKind::F7, main.site));
    }
    let mut values = Vec::new(context.alloc);
    run_function(main, &placed, context, outside, state, &mut values)?;
    copy_out(&values, context, state)
}

// Places arrays.
fn place_all(
    alloc: Global,
    heap: &mut Store<'_>,
    arrays: Vec<Array>,
) -> Result<Vec<RunValue>, Memory>
    ensures placed { (m : MachineHeap) → Stands heap.old m → IfOk result (λ v. ArePlaced v.items heap.new (all_placed arrays.items m)) }
    ensures full { OnOk result (AllFull arrays.items) }
    ensures lender { lender_of heap.new ≡ lender_of heap.old }
{
    let mut values = Vec::new(alloc);
    for array in arrays {
        let _ = array.cells();
        values.push(place_own(heap, array)?)?;
    }
    Ok(values)
}

// Takes values out of the heap.
fn copy_out(
    values: &[RunValue],
    context: &Context<'_>,
    state: &mut State<'_, '_>,
) -> Result<Vec<Array>, Stop>
    ensures told { (m : MachineHeap) → IsAt state.old m → Told AreArrays result state.new (copied_out (map value_of values.now) m) }
    ensures lender { lender_of state.new.heap ≡ lender_of state.old.heap }
{
    let arrays = take_all(context.alloc, &mut state.heap, values)?;
    Ok(arrays)
}

// The arrays that values are, whose references are given up. One alone is not copied where no other reference leads to its
// buffer.
fn take_all(alloc: Global, heap: &mut Store<'_>, values: &[RunValue]) -> Result<Vec<Array>, Memory>
    ensures arrays { (m : MachineHeap) → Stands heap.old m → IfOk result (λ v. v.items ≡ map (read m) (map value_of values.now)) }
    ensures released { (m : MachineHeap) → Stands heap.old m → OnOk result (Stands heap.new (all_released (map value_of values.now) m)) }
    ensures lender { lender_of heap.new ≡ lender_of heap.old }
{
    match values {
        [value] => take_one(alloc, heap, *value),
        _ => copy_all(alloc, heap, values),
    }
}

fn take_one(alloc: Global, heap: &mut Store<'_>, value: RunValue) -> Result<Vec<Array>, Memory>
    ensures arrays { (m : MachineHeap) → Stands heap.old m → IfOk result (λ v. v.items ≡ read m (value_of value) ∷ []) }
    ensures released { (m : MachineHeap) → Stands heap.old m → OnOk result (Stands heap.new (all_released (value_of value ∷ []) m)) }
    ensures lender { lender_of heap.new ≡ lender_of heap.old }
{
    let array = take_array(alloc, heap, value)?;
    let mut arrays = Vec::new(alloc);
    arrays.push(array)?;
    Ok(arrays)
}

// Others may lead to the same buffer, so that all are read before the first is released.
fn copy_all(alloc: Global, heap: &mut Store<'_>, values: &[RunValue]) -> Result<Vec<Array>, Memory>
    ensures arrays { (m : MachineHeap) → Stands heap.old m → IfOk result (λ v. v.items ≡ map (read m) (map value_of values.now)) }
    ensures released { (m : MachineHeap) → Stands heap.old m → OnOk result (Stands heap.new (all_released (map value_of values.now) m)) }
    ensures lender { lender_of heap.new ≡ lender_of heap.old }
{
    let arrays = read_all(alloc, heap, values)?;
    release_all(heap, values)?;
    Ok(arrays)
}

fn read_all(alloc: Global, heap: &Store<'_>, values: &[RunValue]) -> Result<Vec<Array>, Memory>
    ensures { (m : MachineHeap) → Stands heap.now m → IfOk result (λ v. v.items ≡ map (read m) (map value_of values.now)) }
{
    let mut arrays = Vec::new(alloc);
    for value in values {
        arrays.push(read_array(alloc, heap, *value)?)?;
    }
    Ok(arrays)
}

fn release_all(heap: &mut Store<'_>, values: &[RunValue]) -> Result<(), Memory>
    ensures released { (m : MachineHeap) → Stands heap.old m → OnOk result (Stands heap.new (all_released (map value_of values.now) m)) }
    ensures lender { lender_of heap.new ≡ lender_of heap.old }
{
    for value in values {
        release(heap, *value)?;
    }
    Ok(())
}
